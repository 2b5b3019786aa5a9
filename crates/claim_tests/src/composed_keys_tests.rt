//! The components and a key of a small program: `f` calls `g`, and `g` has a slot for a pointer to `s`, which points to `r`.
use composed_keys::{Outer, are_flows, components_of, is_key_of, key_of, structures_of};
use shape_data::answer::Key;
use shape_data::program::{Field, Program, StructDef};
use shape_data::{Row, well_formed_program};
use std::alloc::{AllocError, Global};
use std::process::Abort;
use std::test::Fail;
use toy_programs::programs::{CALLER, LEAF, Sketch, name_of, procs, type_of};

/// The structures: the letter of each, and what its field points to, if not an int.
const STRUCTURES: [(u8, Option<u8>); 3] = [(b's', Some(b'r')), (b't', Some(b's')), (b'r', None)];

const POINTER_LEAF: Sketch = Sketch {
    slots: &[Some(b's')],
    ..LEAF
};

/// The components of the program: the places of their procedures, and whom these call outside.
const COMPONENTS: [(&[u32], &[Outer]); 2] = [
    (&[1], &[]),
    (
        &[0],
        &[Outer {
            number: 1,
            component: 0,
        }],
    ),
];

fn fields(alloc: Global, pointed: Option<u8>) -> Result<Row<Field>, AllocError> {
    let mut fields = Row::new(alloc);
    fields.push(Field {
        name: name_of(alloc, b'n')?,
        ty: type_of(alloc, pointed)?,
    })?;
    Ok(fields)
}

fn structs(alloc: Global) -> Result<Row<StructDef>, AllocError> {
    let mut structs = Row::new(alloc);
    for (letter, pointed) in STRUCTURES {
        structs.push(StructDef {
            name: name_of(alloc, letter)?,
            fields: fields(alloc, pointed)?,
        })?;
    }
    Ok(structs)
}

fn program(alloc: Global) -> Result<Program, AllocError> {
    Ok(Program {
        structs: structs(alloc)?,
        procs: procs(alloc, &[CALLER, POINTER_LEAF])?,
    })
}

#[test]
fn callees_stand_first(rt: HostRuntime) -> Result<(), Fail> {
    let alloc = rt.alloc();
    let program = program(alloc)?;
    assert!(rt; well_formed_program(&program));
    let rows = components_of(alloc, &program)?;
    assert_eq!(rt; rows.len(), COMPONENTS.len());
    for (row, (members, outer)) in rows.iter().zip(COMPONENTS) {
        assert_eq!(rt; row.members.as_slice(), members);
        assert_eq!(rt; row.outer.as_slice(), outer);
    }
    Ok(())
}

/// The key of `g`, which is alone in its component.
fn key_of_leaf(rt: &impl Abort, alloc: Global, program: &Program) -> Result<Key, Fail> {
    assert!(rt; program.structs.len() < 100);
    assert!(rt; program.procs.len() > 1);
    let structures = structures_of(alloc, &program.structs)?;
    let key = key_of(alloc, program, &structures, &[1], Row::new(alloc))?;
    assert!(rt; are_flows(program, &[1], &key.procs));
    assert!(rt; is_key_of(alloc, program, &structures, &[1], &key)?);
    Ok(key)
}

#[test]
fn a_key_has_the_structures_used(rt: HostRuntime) -> Result<(), Fail> {
    let alloc = rt.alloc();
    let program = program(alloc)?;
    let key = key_of_leaf(&rt, alloc, &program)?;
    assert!(rt; !key.recursive);
    assert_eq!(rt; key.procs.len(), 1);
    assert_eq!(rt; key.structs.len(), 2);
    assert_eq!(rt; key.structs[0].name.as_bytes(), b"r".as_slice());
    assert_eq!(rt; key.structs[1].name.as_bytes(), b"s".as_slice());
    Ok(())
}
