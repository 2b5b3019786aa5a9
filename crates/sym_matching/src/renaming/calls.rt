//! A spec in its caller: the precondition with new numbers, its parameters bound to the arguments and its other variables flexible;
//! and a post as it reads in the caller, once the precondition was matched.
ghost use Rattle.std.specs.Prelude.{◌≡◌, ◌≤◌, IfOk, filter, length};
ghost use Rattle.std.specs.Option.{is_none};
ghost use Rattle.sym_matching.specs.Rooms.{IsWithinSizes};
ghost use Rattle.sym_matching.specs.Renaming.Calls.{
  bound_in as bound_in_of,
  called_with,
  new_in_post as new_in_post_of,
  others_flexible as others_flexible_of,
  parameters_bound as parameters_bound_of,
  post_in_caller as post_in_caller_of,
  post_numbers as post_numbers_of,
  pre_numbers as pre_numbers_of,
  variables_from,
};
ghost use Rattle.sym_matching.specs.Renaming.Sizes.{AreSmall};

use crate::renaming::apart::numbers_apart;
use crate::renaming::parts::{CalledPre, Numbers};
use crate::renaming::reading::bound_to;
use crate::renaming::variables::{add_binding, add_heap, add_post};
use shape_data::Row;
use shape_data::symbolic::{Exp, FIRST_EXISTENTIAL, Post, SymHeap};
use std::alloc::{AllocError, Global};
use sym_parts::{Mapping, map_heap, map_post};

/// The variables from 0 on, so many.
fn parameters(alloc: Global, count: u32) -> Result<Vec<u32>, AllocError>
    ensures { IfOk result (λ names. names.items ≡ variables_from 0 count) }
{
    let mut names = Vec::new(alloc);
    for x in 0..count {
        names.push(x)?;
    }
    Ok(names)
}

/// New numbers for the parameters and the other variables of a precondition.
fn pre_numbers(
    alloc: Global,
    used: &[u32],
    params: u32,
    pre: &SymHeap,
) -> Result<Numbers, AllocError>
    requires used { length used.now ≤ 1073741824 }
    requires params { params ≤ 32768 }
    requires pre { IsWithinSizes pre.now }
    ensures value { IfOk result (λ apart. apart ≡ pre_numbers_of used.now params pre.now) }
    ensures small { IfOk result (λ apart. AreSmall apart.numbers) }
{
    let mut names = parameters(alloc, params)?;
    add_heap(&mut names, pre)?;
    numbers_apart(alloc, used, names.as_slice())
}

/// The parameters in their new numbers, bound to the arguments.
fn parameters_bound(
    alloc: Global,
    apart: &Numbers,
    args: &[Exp],
) -> Result<Vec<(u32, Exp)>, AllocError>
    requires { length args.now ≤ 32768 }
    ensures { IfOk result (λ bound. bound.items ≡ parameters_bound_of apart.now 0 args.now) }
{
    let mut bound = Vec::new(alloc);
    let mut param = 0;
    for arg in args {
        bound.push((apart.number_of(param), *arg))?;
        param += 1;
    }
    Ok(bound)
}

/// The variables that are no parameters, in their new numbers.
fn others_flexible(alloc: Global, apart: &Numbers, params: u32) -> Result<Vec<u32>, AllocError>
    ensures { IfOk result (λ names. names.items ≡ others_flexible_of apart.now params) }
{
    let mut names = Vec::new(alloc);
    for x in apart.variables.as_slice() {
        if params <= *x {
            names.push(apart.number_of(*x))?;
        }
    }
    Ok(names)
}

/// The precondition of a callee's spec for a match in the caller: its variables have new numbers, apart from those in use, and the
/// parameters, as many as there are arguments, are bound to these. By the law [`crate::renaming::laws::match_is_call`] a match of
/// it is a call. The only error is want of memory.
pub fn called_pre(
    alloc: Global,
    used: &[u32],
    pre: &SymHeap,
    args: &[Exp],
) -> Result<CalledPre, AllocError>
    requires used { length used.now ≤ 1073741824 }
    requires pre { IsWithinSizes pre.now }
    requires args { length args.now ≤ 32768 }
    ensures value { IfOk result (λ called. called ≡ called_with used.now args.now pre.now) }
{
    let numbers = pre_numbers(alloc, used, args.len() as u32, pre)?;
    let bound = parameters_bound(alloc, &numbers, args)?;
    let flexible = others_flexible(alloc, &numbers, args.len() as u32)?;
    let pre = map_heap(alloc, &numbers, pre)?;
    Ok(CalledPre {
        numbers,
        pre,
        bound: Row::from_vec(bound),
        flexible: Row::from_vec(flexible),
    })
}

/// What the match of a precondition found.
#[derive(Clone, Copy)]
struct Found<'a> {
    apart: &'a Numbers,
    binding: &'a [(u32, Exp)],
}

impl<'a> Found<'a> {
    /// What a logical variable of a post was bound to.
    fn bound_in(&self, x: u32) -> Option<Exp>
        ensures { result ≡ bound_in_of self.now.apart.now self.now.binding.now x }
    {
        if x < FIRST_EXISTENTIAL {
            bound_to(self.binding, self.apart.number_of(x))
        } else {
            None
        }
    }
}

/// The variables of a post that are new in the caller.
fn new_in_post(alloc: Global, found: &Found, post: &Post) -> Result<Vec<u32>, AllocError>
    ensures { IfOk result (λ names. names.items ≡ new_in_post_of found.now.apart.now found.now.binding.now post.now) }
{
    let mut all = Vec::new(alloc);
    add_post(&mut all, post)?;
    unbound_ones(alloc, found, all.as_slice())
}

/// Those of a list that the match left unbound.
fn unbound_ones(alloc: Global, found: &Found, list: &[u32]) -> Result<Vec<u32>, AllocError>
    ensures { IfOk result (λ names. names.items
        ≡ filter (λ x. is_none (bound_in_of found.now.apart.now found.now.binding.now x)) list.now) }
{
    let mut names = Vec::new(alloc);
    for x in list {
        if found.bound_in(*x).is_none() {
            names.push(*x)?;
        }
    }
    Ok(names)
}

/// New numbers for these.
fn post_numbers(
    alloc: Global,
    used: &[u32],
    found: &Found,
    post: &Post,
) -> Result<Numbers, AllocError>
    requires used { length used.now ≤ 1073741824 }
    requires binding { length found.now.binding.now ≤ 268435456 }
    requires post { IsWithinSizes post.now.heap }
    ensures value { IfOk result (λ own. own ≡ post_numbers_of used.now found.now.apart.now found.now.binding.now post.now) }
    ensures small { IfOk result (λ own. AreSmall own.numbers) }
{
    let list = new_in_post(alloc, found, post)?;
    let mut avoid = used.to_vec(alloc)?;
    add_binding(&mut avoid, found.binding)?;
    numbers_apart(alloc, avoid.as_slice(), list.as_slice())
}

/// Reads the expressions of a post in the caller.
#[derive(Clone, Copy)]
struct InCaller<'a> {
    found: Found<'a>,
    own: &'a Numbers,
}

impl<'a> Mapping for InCaller<'a> {
    ghost use Rattle.sym_matching.specs.Renaming.Calls.{in_caller};

    ghost image = { λ reading. in_caller reading.found.apart.now reading.found.binding.now reading.own.now };

    fn image_of(&self, e: Exp) -> Exp {
        match e {
            Exp::Var(x) => match self.found.bound_in(x) {
                Some(f) => f,
                None => Exp::Var(self.own.number_of(x)),
            },
            Exp::Const(_) => e,
        }
    }
}

/// A post of the callee's spec in the caller, once its precondition was matched under the numbers `apart` and with this binding:
/// logical variables are read through the binding, and existential ones, with those that the match left unbound, get new
/// numbers, apart from those in use and from what the match bound. `used` should have the variables of the state, of the
/// frame and of the missing heap. By the law [`crate::renaming::laws::post_in_caller`] it means the same. The only error is want
/// of memory.
pub fn post_in_caller(
    alloc: Global,
    used: &[u32],
    apart: &Numbers,
    binding: &[(u32, Exp)],
    post: &Post,
) -> Result<Post, AllocError>
    requires used { length used.now ≤ 1073741824 }
    requires binding { length binding.now ≤ 268435456 }
    requires post { IsWithinSizes post.now.heap }
    ensures { IfOk result (λ made. made ≡ post_in_caller_of used.now apart.now binding.now post.now) }
{
    let found = Found { apart, binding };
    let own = post_numbers(alloc, used, &found, post)?;
    map_post(alloc, &InCaller { found, own: &own }, post)
}
