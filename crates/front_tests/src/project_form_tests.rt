//! Projects of several files, as tables.

use project_form::{ProgramFault, Project, PutFault};
use shape_data::Name;
use shape_data::program::Program;
use stack_module::STACK;
use std::alloc::Global;
use std::rt::HostRuntime;
use std::test::Fail;

/// The line and the number of nodes of each procedure of the stack module.
const STACK_PROCS: [(u32, usize); 8] = [
    (13, 8),
    (21, 7),
    (25, 13),
    (35, 13),
    (45, 8),
    (54, 8),
    (60, 5),
    (64, 3),
];

/// A name that is short enough.
fn name(alloc: Global, text: &[u8]) -> Result<Name, Fail> {
    if !Name::is_name(text) {
        return Err("no name")?;
    }
    Ok(Name::of(alloc, text)?)
}

/// Puts bytes under a name, and says with which code they are refused, 0 being none.
fn put(alloc: Global, project: &mut Project, file: &str, bytes: Vec<u8>) -> Result<u16, Fail> {
    let file = name(alloc, file.as_bytes())?;
    match project.put(alloc, &file, bytes) {
        Ok(()) => Ok(0),
        Err(PutFault::Code(code)) => Ok(code),
        Err(PutFault::OutOfMemory) => Err("memory")?,
    }
}

/// Puts so many blanks under a name.
fn put_blanks(alloc: Global, project: &mut Project, file: &str, count: usize) -> Result<u16, Fail> {
    put(alloc, project, file, vec![in alloc; b' '; count]?)
}

/// Puts a text under a name, or drops the file of this name.
fn change(
    alloc: Global,
    project: &mut Project,
    file: &str,
    text: Option<&str>,
) -> Result<u16, Fail> {
    match text {
        Some(text) => put(alloc, project, file, text.as_bytes().to_vec(alloc)?),
        None => Ok(u16::from(!project.drop_file(&name(alloc, file.as_bytes())?)) * 145),
    }
}

/// The names of the procedures, each with its line and its file.
fn procedures(alloc: Global, program: &Program) -> Result<String, Fail> {
    let mut text = String::new(alloc);
    for proc in program.procs.as_slice() {
        let name = str::from_utf8(proc.flow.name.as_bytes())?;
        let file = str::from_utf8(proc.file.as_bytes())?;
        text.push_str(format!(in alloc; "{name}:{}:{file} ", proc.line)?.as_str())?;
    }
    Ok(text)
}

/// The program that the files are, or where they are refused.
fn answer(alloc: Global, project: &mut Project) -> Result<String, Fail> {
    match project.program(alloc) {
        Ok(program) => procedures(alloc, &program),
        Err(ProgramFault::Refused(refused)) => {
            let file = str::from_utf8(refused.file.as_bytes())?;
            Ok(format!(in alloc; "{file} {} {}", refused.line, refused.code)?)
        }
        Err(ProgramFault::OutOfMemory) => Err("memory")?,
    }
}

/// Changes of one project, one after the other: a file, its text or nothing where it is dropped, and what the files then are.
const CHANGES: [(&str, Option<&str>, &str); 20] = [
    // one file uses another's structure and procedure
    (
        "b.c",
        Some("int f(struct s *x) { return g(x); }"),
        "b.c 1 121",
    ),
    (
        "a.c",
        Some("struct s { int v; };\nint g(struct s *x) { return f(x); }"),
        "g:2:a.c f:1:b.c ",
    ),
    (
        "b.c",
        Some("int f(struct s *x) { return g(x); }"),
        "g:2:a.c f:1:b.c ",
    ),
    // a name that is defined in two files is refused in the later one
    (
        "c.c",
        Some("\n\nint f(struct s *x) { return 1; }"),
        "c.c 3 123",
    ),
    // tokens come before syntax, syntax before types, types before what is too large, and in each the files by name
    (
        "a.c",
        Some("int g(int a,int b,int c,int d,int e,int h,int i,int j,int k) { return 1; }"),
        "b.c 1 121",
    ),
    ("d.c", Some("int h(void) {\nreturn 1 }"), "d.c 2 111"),
    ("z.c", Some("\n@"), "z.c 2 101"),
    ("y.c", Some("/* x"), "y.c 1 102"),
    ("c", Some("int h(void) { return }"), "y.c 1 102"),
    ("y.c", None, "z.c 2 101"),
    ("z.c", None, "c 1 111"),
    ("c", None, "d.c 2 111"),
    ("d.c", None, "b.c 1 121"),
    ("b.c", None, "c.c 3 121"),
    ("c.c", None, "a.c 1 133"),
    // put again
    ("a.c", Some("struct s { int v; };"), ""),
    (
        "a",
        Some("int a(void) { return 0; }\nint b(void) { return a(); }"),
        "a:1:a b:2:a ",
    ),
    (
        "a.b",
        Some("int c(void) { return b(); }"),
        "a:1:a b:2:a c:1:a.b ",
    ),
    ("a.c", None, "a:1:a b:2:a c:1:a.b "),
    ("a", None, "a.b 1 121"),
];

#[test]
fn files_are_one_program_or_refused_first_by_stage(rt: HostRuntime) -> Result<(), Fail> {
    let alloc = rt.alloc();
    let mut project = Project::new(alloc);
    assert_eq!(rt; answer(alloc, &mut project)?.as_str(), "");
    for (file, text, wanted) in CHANGES {
        assert_eq!(rt; change(alloc, &mut project, file, text)?, 0);
        assert_eq!(rt; answer(alloc, &mut project)?.as_str(), wanted);
    }
    assert_eq!(rt; change(alloc, &mut project, "a", None)?, 145);
    Ok(())
}

/// Changes of ten files, and of how many files the syntax tree is kept: when the change is made, and when the program is read.
const KEPT: [(&str, Option<&str>, u32, u32); 6] = [
    ("f3.c", Some("int p3(void) { return 3; }"), 10, 10),
    ("f3.c", Some("int p3(void) { return 4; }"), 9, 10),
    ("f3.c", Some("int p3(void) { return 4 }"), 9, 9),
    ("f4.c", Some("int p4(void) { return y; }"), 8, 9),
    ("f4.c", None, 8, 8),
    ("f3.c", None, 8, 8),
];

#[test]
fn a_parse_is_kept_until_the_bytes_change(rt: HostRuntime) -> Result<(), Fail> {
    let alloc = rt.alloc();
    let mut project = Project::new(alloc);
    for number in 0..10u32 {
        let file = format!(in alloc; "f{number}.c")?;
        let text = format!(in alloc; "int p{number}(void) {{ return {number}; }}")?;
        change(alloc, &mut project, file.as_str(), Some(text.as_str()))?;
    }
    assert_eq!(rt; project.kept(), 0);
    answer(alloc, &mut project)?;
    assert_eq!(rt; project.kept(), 10);
    for (file, text, made, read) in KEPT {
        assert_eq!(rt; change(alloc, &mut project, file, text)?, 0);
        assert_eq!(rt; project.kept(), made);
        answer(alloc, &mut project)?;
        assert_eq!(rt; project.kept(), read);
    }
    Ok(())
}

#[test]
fn files_are_at_most_so_many_and_so_long(rt: HostRuntime) -> Result<(), Fail> {
    let alloc = rt.alloc();
    let mut project = Project::new(alloc);
    for number in 0..256u32 {
        assert_eq!(rt;
            put_blanks(
                alloc,
                &mut project,
                format!(in alloc; "f{number}")?.as_str(),
                0
            )?,
            0
        );
    }
    let rows = [
        ("f0", 1_048_577, 143),
        ("new", 1_048_577, 143),
        ("new", 0, 141),
        ("f0", 1_048_576, 0),
        ("f1", 1_048_576, 0),
        ("f2", 1_048_576, 0),
        ("f3", 1_048_575, 0),
        ("f4", 2, 144),
        ("f4", 1, 0),
        ("f5", 1, 144),
        ("new", 1, 141),
        ("f0", 1_048_576, 0),
        ("f0", 1_048_575, 0),
        ("f5", 1, 0),
    ];
    for (file, count, code) in rows {
        assert_eq!(rt; put_blanks(alloc, &mut project, file, count)?, code);
    }
    assert_eq!(rt; answer(alloc, &mut project)?.as_str(), "");
    assert_eq!(rt; change(alloc, &mut project, "f9", None)?, 0);
    assert_eq!(rt; put_blanks(alloc, &mut project, "new", 1)?, 144);
    assert_eq!(rt; put_blanks(alloc, &mut project, "new", 0)?, 0);
    Ok(())
}

/// The text of procedures with these numbers, one a line.
fn many(alloc: Global, from: u32, to: u32) -> Result<String, Fail> {
    let mut text = String::new(alloc);
    for number in from..to {
        text.push_str(format!(in alloc; "void p{number}(void) {{ }}\n")?.as_str())?;
    }
    Ok(text)
}

#[test]
fn procedures_of_all_files_are_at_most_so_many(rt: HostRuntime) -> Result<(), Fail> {
    let alloc = rt.alloc();
    let mut project = Project::new(alloc);
    let rows = [
        ("a.c", 0, 1000, true),
        ("c.c", 2000, 2024, true),
        ("b.c", 1000, 1001, false),
        ("b.c", 1000, 1000, true),
    ];
    for (file, from, to, fine) in rows {
        let text = many(alloc, from, to)?;
        change(alloc, &mut project, file, Some(text.as_str()))?;
        let found = answer(alloc, &mut project)?;
        assert_eq!(rt; found.as_str() != "c.c 24 142", fine);
    }
    Ok(())
}

#[test]
fn the_stack_module_has_so_many_nodes(rt: HostRuntime) -> Result<(), Fail> {
    let alloc = rt.alloc();
    let mut project = Project::new(alloc);
    assert_eq!(&rt;
        put(
            alloc,
            &mut project,
            "stack.c",
            Vec::from_slice(alloc, STACK)?
        )?,
        0
    );
    let Ok(program) = project.program(alloc) else {
        return Err("refused")?;
    };
    assert_eq!(&rt; program.procs.len(), STACK_PROCS.len());
    for (proc, wanted) in program.procs.iter().zip(STACK_PROCS) {
        let found = (proc.line, proc.flow.nodes.len());
        assert!(&rt; found == wanted, "{found:?} is not {wanted:?}");
    }
    Ok(())
}
