//! The table of a row.
use crate::rows::piece;
use exec_laws::Table;
use shape_data::answer::Callee;
use shape_data::symbolic::{Post, Spec};
use shape_data::{Name, Row};
use std::alloc::{AllocError, Global};
use worked_rows::Fault;
use worked_rows::parts::{first_word, part};
use worked_scopes::Scope;
use worked_scopes::names::name_of;

/// The names of a text, with blanks between them.
fn names_in(alloc: Global, text: &str) -> Result<Row<Name>, Fault> {
    let mut names = Row::new(alloc);
    for word in text.split_whitespace() {
        names.push(name_of(alloc, word)?)?;
    }
    Ok(names)
}

/// A callee `f(a b)` without specs.
fn callee_of(alloc: Global, text: &str) -> Result<Callee, Fault> {
    let Some((name, rest)) = text.split_once('(') else {
        return Err(Fault::Row);
    };
    let Some(params) = rest.strip_suffix(')') else {
        return Err(Fault::Row);
    };
    Ok(Callee {
        name: name_of(alloc, name)?,
        params: names_in(alloc, params)?,
        specs: Row::new(alloc),
    })
}

/// The posts of the pieces from the third on.
fn posts_of(alloc: Global, scope: &Scope, params: &[Name], text: &str) -> Result<Row<Post>, Fault> {
    let mut posts = Row::new(alloc);
    for post in text.split('/').skip(2) {
        posts.push(scope.post_over(alloc, params, post.trim())?)?;
    }
    Ok(posts)
}

/// The spec of the pieces behind the first, if there are any.
fn spec_of(
    alloc: Global,
    scope: &Scope,
    params: &[Name],
    text: &str,
) -> Result<Option<Spec>, Fault> {
    let pre = piece(text, 1);
    if pre.is_empty() {
        return Ok(None);
    }
    Ok(Some(Spec {
        pre: scope.heap_over(alloc, params, pre)?,
        posts: posts_of(alloc, scope, params, text)?,
    }))
}

/// The last callee, if it is that of the name; else this one, with no spec yet.
fn last_or_new(all: &mut Vec<Callee>, callee: Callee) -> Result<Callee, AllocError> {
    match all.pop() {
        None => Ok(callee),
        Some(last) => {
            if last.name == callee.name {
                return Ok(last);
            }
            all.push(last)?;
            Ok(callee)
        }
    }
}

/// Puts a callee behind others.
fn put(all: &mut Vec<Callee>, callee: Callee) -> Result<(), AllocError> {
    all.push(callee)?;
    Ok(())
}

/// Puts the spec of a text, if it has one, behind those of its callee.
fn add_spec(alloc: Global, scope: &Scope, callee: &mut Callee, text: &str) -> Result<(), Fault> {
    if let Some(spec) = spec_of(alloc, scope, callee.params.as_slice(), text)? {
        callee.specs.push(spec)?;
    }
    Ok(())
}

/// Puts a callee of a text behind others, or its spec behind those of the last one, if that has its name.
fn add_callee(
    alloc: Global,
    scope: &Scope,
    all: &mut Vec<Callee>,
    text: &str,
) -> Result<(), Fault> {
    let listed = callee_of(alloc, piece(text, 0))?;
    let mut callee = last_or_new(all, listed)?;
    add_spec(alloc, scope, &mut callee, text)?;
    Ok(put(all, callee)?)
}

/// The callees of the parts with this word.
fn callees(alloc: Global, scope: &Scope, row: &str, word: &str) -> Result<Row<Callee>, Fault> {
    let mut all = Vec::new(alloc);
    for part in row.split(';') {
        let (own, text) = first_word(part);
        if own == word {
            add_callee(alloc, scope, &mut all, text)?;
        }
    }
    Ok(Row::from_vec(all))
}

/// The table of a row.
pub fn table(alloc: Global, scope: &Scope, row: &str) -> Result<Table, Fault> {
    Ok(Table {
        own: callees(alloc, scope, row, "own")?,
        outer: callees(alloc, scope, row, "outer")?,
        cut: part(row, "cut").is_some(),
    })
}
