//! Writes trees with parentheses round each operator's operands, so that their structure shows. It keeps a list of what is
//! still to be written, and so it needs no recursion.
use c_tree::{
    AssignOp, BinaryOp, Block, Declarator, Expr, FieldDecl, ForInit, Head, Ident, Initialized,
    Item, Link, Local, Param, Params, PrefixOp, Simple, StepOp, Stmt, TypeSpecifier, Unit,
};
use std::alloc::{AllocError, Global};

/// What is still to be written.
#[derive(Clone, Copy)]
enum Task<'a> {
    Text(&'a [u8]),
    Stars(usize),
    Number(u32),
    Name(&'a Ident),
    Type(&'a TypeSpecifier),
    Declarator(&'a Declarator),
    More(&'a [Declarator]),
    Fields(&'a [FieldDecl]),
    Param(&'a Param),
    Params(&'a [Param]),
    Head(&'a Head),
    Item(&'a Item),
    Expr(&'a Expr),
    Links(&'a [Link]),
    Members(&'a [Ident]),
    Args(&'a [Expr]),
    Simple(&'a Simple),
    Initialized(&'a Initialized),
    Others(&'a [Initialized]),
    Local(&'a Local),
    Block(&'a Block),
    Stmt(&'a Stmt),
    Stmts(&'a [Stmt]),
}

fn binary_text(op: BinaryOp) -> &'static [u8] {
    match op {
        BinaryOp::Or => b"||",
        BinaryOp::And => b"&&",
        BinaryOp::Equal => b"==",
        BinaryOp::NotEqual => b"!=",
        BinaryOp::Less => b"<",
        BinaryOp::LessEqual => b"<=",
        BinaryOp::Greater => b">",
        BinaryOp::GreaterEqual => b">=",
        BinaryOp::Add => b"+",
        BinaryOp::Subtract => b"-",
        BinaryOp::Multiply => b"*",
    }
}

fn assign_text(op: AssignOp) -> &'static [u8] {
    match op {
        AssignOp::Set => b"=",
        AssignOp::AddTo => b"+=",
        AssignOp::SubtractFrom => b"-=",
        AssignOp::MultiplyBy => b"*=",
    }
}

/// What is still to be written, the first one last.
#[derive(Drop)]
struct Left<'a> {
    tasks: Vec<Task<'a>>,
}

impl<'a> Left<'a> {
    fn put(&mut self, tasks: &[Task<'a>]) -> Result<(), AllocError> {
        for task in tasks.iter().rev() {
            self.tasks.push(*task)?;
        }
        Ok(())
    }

    fn type_of(&mut self, specifier: &'a TypeSpecifier) -> Result<(), AllocError> {
        match specifier {
            TypeSpecifier::Int(_) => self.put(&[Task::Text(b"int")]),
            TypeSpecifier::Void(_) => self.put(&[Task::Text(b"void")]),
            TypeSpecifier::Struct(_, tag) => self.put(&[Task::Text(b"struct "), Task::Name(tag)]),
            TypeSpecifier::Alias(alias) => self.put(&[Task::Name(alias)]),
        }
    }

    fn param(&mut self, param: &'a Param) -> Result<(), AllocError> {
        if let Some(name) = &param.name {
            self.put(&[Task::Name(name)])?;
        }
        if param.stars > 0 {
            self.put(&[Task::Text(b" "), Task::Stars(param.stars)])?;
        } else if param.name.is_some() {
            self.put(&[Task::Text(b" ")])?;
        }
        self.put(&[Task::Type(&param.specifier)])
    }

    fn head(&mut self, head: &'a Head) -> Result<(), AllocError> {
        match &head.params {
            Params::Empty => self.put(&[Task::Text(b")")])?,
            Params::Void(_) => self.put(&[Task::Text(b"void)")])?,
            Params::Listed(params) => self.put(&[
                Task::Param(&params.first),
                Task::Params(params.others.as_slice()),
                Task::Text(b")"),
            ])?,
        }
        self.put(&[
            Task::Type(&head.specifier),
            Task::Text(b" "),
            Task::Declarator(&head.declarator),
            Task::Text(b"("),
        ])
    }

    fn item(&mut self, item: &'a Item) -> Result<(), AllocError> {
        match item {
            Item::Struct { tag, fields, .. } => self.put(&[
                Task::Text(b"struct "),
                Task::Name(tag),
                Task::Text(b"{"),
                Task::Fields(fields.as_slice()),
                Task::Text(b"}\n"),
            ]),
            Item::TypedefStruct {
                tag,
                fields,
                alias,
                ..
            } => {
                self.put(&[
                    Task::Text(b"{"),
                    Task::Fields(fields.as_slice()),
                    Task::Text(b"} "),
                    Task::Name(alias),
                    Task::Text(b"\n"),
                ])?;
                if let Some(tag) = tag {
                    self.put(&[Task::Name(tag)])?;
                }
                self.put(&[Task::Text(b"typedef struct ")])
            }
            Item::TypedefAlias { tag, alias, .. } => self.put(&[
                Task::Text(b"typedef struct "),
                Task::Name(tag),
                Task::Text(b" "),
                Task::Name(alias),
                Task::Text(b"\n"),
            ]),
            Item::Prototype(head) => self.put(&[Task::Head(head), Task::Text(b"\n")]),
            Item::Definition(head, block) => self.put(&[
                Task::Head(head),
                Task::Block(block),
                Task::Text(b"\n"),
            ]),
        }
    }

    fn chain(&mut self, first: &'a Expr, links: &'a [Link]) -> Result<(), AllocError> {
        self.put(&[Task::Expr(first), Task::Links(links)])?;
        for _ in links {
            self.put(&[Task::Text(b"(")])?;
        }
        Ok(())
    }

    fn expr(&mut self, expr: &'a Expr) -> Result<(), AllocError> {
        match expr {
            Expr::Chain(first, links) => self.chain(&**first, links.as_slice()),
            Expr::Prefix(_, PrefixOp::Negate, inner) => {
                self.put(&[Task::Text(b"(-"), Task::Expr(&**inner), Task::Text(b")")])
            }
            Expr::Prefix(_, PrefixOp::Not, inner) => {
                self.put(&[Task::Text(b"(!"), Task::Expr(&**inner), Task::Text(b")")])
            }
            Expr::Members(base, fields) => self.put(&[
                Task::Text(b"("),
                Task::Expr(&**base),
                Task::Text(b"->"),
                Task::Name(&fields.first),
                Task::Members(fields.others.as_slice()),
                Task::Text(b")"),
            ]),
            Expr::Variable(name) => self.put(&[Task::Name(name)]),
            Expr::Number(_, value) => self.put(&[Task::Number(*value)]),
            Expr::Null(_) => self.put(&[Task::Text(b"NULL")]),
            Expr::Paren(_, inner) => {
                self.put(&[Task::Text(b"["), Task::Expr(&**inner), Task::Text(b"]")])
            }
            Expr::Call(callee, args) => self.put(&[
                Task::Name(callee),
                Task::Text(b"{"),
                Task::Args(args.as_slice()),
                Task::Text(b"}"),
            ]),
            Expr::Malloc(_, types) => self.malloc(&types.cast, &types.allocated),
        }
    }

    fn malloc(
        &mut self,
        as_type: &'a Option<TypeSpecifier>,
        allocated: &'a TypeSpecifier,
    ) -> Result<(), AllocError> {
        self.put(&[
            Task::Text(b"malloc<"),
            Task::Type(allocated),
            Task::Text(b">"),
        ])?;
        if let Some(as_type) = as_type {
            self.put(&[Task::Text(b"cast<"), Task::Type(as_type), Task::Text(b">")])?;
        }
        Ok(())
    }

    fn simple(&mut self, simple: &'a Simple) -> Result<(), AllocError> {
        match simple {
            Simple::Assign(target, op, value) => self.put(&[
                Task::Expr(target),
                Task::Text(assign_text(*op)),
                Task::Expr(value),
            ]),
            Simple::Step(target, StepOp::Increment) => {
                self.put(&[Task::Expr(target), Task::Text(b"++")])
            }
            Simple::Step(target, StepOp::Decrement) => {
                self.put(&[Task::Expr(target), Task::Text(b"--")])
            }
            Simple::Call(callee, args) => self.put(&[
                Task::Name(callee),
                Task::Text(b"{"),
                Task::Args(args.as_slice()),
                Task::Text(b"}"),
            ]),
            Simple::Free(_, pointer) => self.put(&[Task::Text(b"free "), Task::Expr(pointer)]),
        }
    }

    fn initialized(&mut self, one: &'a Initialized) -> Result<(), AllocError> {
        if let Some(value) = &one.value {
            self.put(&[Task::Text(b"="), Task::Expr(value)])?;
        }
        self.put(&[Task::Declarator(&one.declarator)])
    }

    fn for_head(
        &mut self,
        init: &'a ForInit,
        test: &'a Option<Expr>,
        step: &'a Option<Box<Simple>>,
    ) -> Result<(), AllocError> {
        self.put(&[Task::Text(b")")])?;
        if let Some(step) = step {
            self.put(&[Task::Simple(step)])?;
        }
        self.put(&[Task::Text(b";")])?;
        if let Some(test) = test {
            self.put(&[Task::Expr(test)])?;
        }
        self.put(&[Task::Text(b";")])?;
        match init {
            ForInit::Empty => {}
            ForInit::Local(local) => self.put(&[Task::Local(local)])?,
            ForInit::Simple(simple) => self.put(&[Task::Simple(simple)])?,
        }
        self.put(&[Task::Text(b"for(")])
    }

    fn if_of(
        &mut self,
        test: &'a Expr,
        body: &'a Stmt,
        other: &'a Option<Box<Stmt>>,
    ) -> Result<(), AllocError> {
        self.put(&[Task::Text(b" end")])?;
        if let Some(other) = other {
            self.put(&[Task::Text(b" else "), Task::Stmt(&**other)])?;
        }
        self.put(&[
            Task::Text(b"if "),
            Task::Expr(test),
            Task::Text(b" then "),
            Task::Stmt(body),
        ])
    }

    fn stmt(&mut self, stmt: &'a Stmt) -> Result<(), AllocError> {
        match stmt {
            Stmt::Block(block) => self.put(&[Task::Block(block)]),
            Stmt::Empty(_) => self.put(&[Task::Text(b";")]),
            Stmt::Local(local) => {
                self.put(&[Task::Text(b"local "), Task::Local(local), Task::Text(b";")])
            }
            Stmt::Simple(simple) => self.put(&[Task::Simple(simple), Task::Text(b";")]),
            Stmt::If {
                test,
                body,
                other,
                ..
            } => self.if_of(test, &**body, other),
            Stmt::While { test, body, .. } => self.put(&[
                Task::Text(b"while "),
                Task::Expr(test),
                Task::Text(b" do "),
                Task::Stmt(&**body),
            ]),
            Stmt::DoWhile { body, test, .. } => self.put(&[
                Task::Text(b"do "),
                Task::Stmt(&**body),
                Task::Text(b" while "),
                Task::Expr(test),
                Task::Text(b";"),
            ]),
            Stmt::For {
                init,
                test,
                step,
                body,
                ..
            } => {
                self.put(&[Task::Stmt(&**body)])?;
                self.for_head(init, test, step)
            }
            Stmt::Break(_) => self.put(&[Task::Text(b"break;")]),
            Stmt::Continue(_) => self.put(&[Task::Text(b"continue;")]),
            Stmt::Return(_, value) => self.return_of(value),
        }
    }

    fn return_of(&mut self, value: &'a Option<Expr>) -> Result<(), AllocError> {
        match value {
            None => self.put(&[Task::Text(b"return;")]),
            Some(value) => self.put(&[Task::Text(b"return "), Task::Expr(value), Task::Text(b";")]),
        }
    }

    /// What is next, taken apart; lists give their first thing.
    fn take_apart(&mut self, task: Task<'a>) -> Result<(), AllocError> {
        match task {
            Task::Type(specifier) => self.type_of(specifier),
            Task::Declarator(one) => self.put(&[Task::Stars(one.stars), Task::Name(&one.name)]),
            Task::Param(param) => self.param(param),
            Task::Head(head) => self.head(head),
            Task::Item(item) => self.item(item),
            Task::Expr(expr) => self.expr(expr),
            Task::Simple(simple) => self.simple(simple),
            Task::Initialized(one) => self.initialized(one),
            Task::Local(local) => self.put(&[
                Task::Type(&local.specifier),
                Task::Text(b" "),
                Task::Initialized(&local.declarators.first),
                Task::Others(local.declarators.others.as_slice()),
            ]),
            Task::Block(block) => self.put(&[
                Task::Text(b"{"),
                Task::Stmts(block.stmts.as_slice()),
                Task::Text(b"}"),
            ]),
            Task::Stmt(stmt) => self.stmt(stmt),
            _ => self.take_first(task),
        }
    }

    /// The first thing of a list, and the others.
    fn take_first(&mut self, task: Task<'a>) -> Result<(), AllocError> {
        match task {
            Task::More([first, others @ ..]) => self.put(&[
                Task::Text(b","),
                Task::Declarator(first),
                Task::More(others),
            ]),
            Task::Fields([first, others @ ..]) => self.put(&[
                Task::Type(&first.specifier),
                Task::Text(b" "),
                Task::Declarator(&first.declarators.first),
                Task::More(first.declarators.others.as_slice()),
                Task::Text(b";"),
                Task::Fields(others),
            ]),
            Task::Params([first, others @ ..]) => {
                self.put(&[Task::Text(b","), Task::Param(first), Task::Params(others)])
            }
            Task::Links([first, others @ ..]) => self.put(&[
                Task::Text(binary_text(first.op)),
                Task::Expr(&first.operand),
                Task::Text(b")"),
                Task::Links(others),
            ]),
            Task::Members([first, others @ ..]) => {
                self.put(&[Task::Text(b"->"), Task::Name(first), Task::Members(others)])
            }
            Task::Args([first]) => self.put(&[Task::Expr(first)]),
            Task::Args([first, others @ ..]) => {
                self.put(&[Task::Expr(first), Task::Text(b","), Task::Args(others)])
            }
            Task::Others([first, others @ ..]) => self.put(&[
                Task::Text(b","),
                Task::Initialized(first),
                Task::Others(others),
            ]),
            Task::Stmts([first, others @ ..]) => {
                self.put(&[Task::Stmt(first), Task::Stmts(others)])
            }
            _ => Ok(()),
        }
    }
}

/// The unit, a line an item.
pub fn show_unit(alloc: Global, unit: &Unit) -> Result<Vec<u8>, AllocError> {
    let mut out = Vec::new(alloc);
    let mut left = Left {
        tasks: Vec::new(alloc),
    };
    for item in unit.items.iter().rev() {
        left.put(&[Task::Item(item)])?;
    }
    for _ in 0..1_000_000 {
        let Some(task) = left.tasks.pop() else {
            break;
        };
        match task {
            Task::Text(text) => out.extend_from_slice(text)?,
            Task::Name(name) => out.extend_from_slice(name.text.as_bytes())?,
            Task::Stars(stars) => {
                for _ in 0..stars {
                    out.push(b'*')?;
                }
            }
            Task::Number(value) => {
                let shown = format!(in alloc; "{value}")?;
                out.extend_from_slice(shown.as_bytes())?;
            }
            _ => left.take_apart(task)?,
        }
    }
    Ok(out)
}
