// The scope calls. Each leaves the answer at place 0.
#![tactic(auto, using(crate::proofs::ScopeLaws::not_three_broken))]

ghost use Rattle.std.specs.Prelude.{◌≡◌};
ghost use Rattle.scope.specs.Calls as spec;
ghost use Rattle.scope.specs.Lent.{push_list, set_context_list};
ghost use Rattle.feel_lexer.specs.Exported.{Called, ScopeCall, ScopeOpened};

use crate::{answer, state};
use scope::lent::Lent;
use scope::scope::{Listed, Scope, Slot};
use text::refusal::Refusal;

// Makes a call on the counts of a scope and writes those that it gives; a refused one leaves them.
// The closure is lent: what it wrote through its captures is known behind it.
#[tactic(auto, unfolding(crate::specs::Exported::number))]
fn called<F: FnMut(Scope) -> Result<Scope, Refusal>>(
    scope: &mut [usize],
    answer: &mut [usize],
    call: &mut F,
) -> Result<(), Refusal>
    requires { F.IsAlwaysCallable call.old }
    ensures { Called F.step call.old answer.old scope.old result answer.new scope.new call.new }
{
    answer::checked(answer, true)?;
    if scope.len() != state::SCOPE_SIZE {
        return Err(Refusal::BrokenScope);
    }
    let s = call(state::scope_of(scope))?;
    state::put_scope(scope, s);
    Ok(())
}

// Opens a scope with one empty context.
// Ruled out, among others: no context at all; a scope of four numbers taken for one of three.
#[unsafe(no_mangle)]
pub extern "C" fn feel_scope_opened(scope: &mut [usize], answer: &mut [usize]) -> u32
    ensures { ScopeOpened answer.old scope.old result answer.new scope.new }
{
    answer::number(called(scope, answer, &mut |_| Ok(Scope::opened())))
}

// Pushes an empty context.
// Ruled out, among others: the 33rd context pushed; a scope that the next call refuses with 10.
#[unsafe(no_mangle)]
pub extern "C" fn feel_scope_push_default(
    scope: &mut [usize],
    slots: &[[u32; Slot::NUMBERS]],
    names: &[[u32; Scope::MAX_NAME]],
    answer: &mut [usize],
) -> u32
    ensures { ScopeCall (spec.push_default) answer.old scope.old slots.now names.now result answer.new scope.new slots.now names.now }
{
    answer::number(called(
        scope,
        answer,
        &mut |counts| {
            scope_calls::stack::push_default(Lent {
                counts,
                slots,
                names,
            })
        },
    ))
}

// Pushes an entry list as one context.
// Ruled out, among others: a repeat that keeps what was below it; rows changed by a refused list.
#[unsafe(no_mangle)]
pub extern "C" fn feel_scope_push(
    scope: &mut [usize],
    slots: &mut [[u32; Slot::NUMBERS]],
    names: &mut [[u32; Scope::MAX_NAME]],
    list: &[[u32; Listed::NUMBERS]],
    cells: &[u32],
    answer: &mut [usize],
) -> u32
    ensures { ScopeCall (push_list cells.now list.now) answer.old scope.old slots.old names.old result answer.new scope.new slots.new names.new }
{
    answer::number(called(
        scope,
        answer,
        &mut |s| scope_calls::push::push(s, slots, names, list, cells),
    ))
}

// Pops the last context; the parsed names stay.
// Ruled out, among others: an empty stack refused; the counts of a refused scope changed.
#[unsafe(no_mangle)]
pub extern "C" fn feel_scope_pop(
    scope: &mut [usize],
    slots: &[[u32; Slot::NUMBERS]],
    names: &[[u32; Scope::MAX_NAME]],
    answer: &mut [usize],
) -> u32
    ensures { ScopeCall (spec.pop) answer.old scope.old slots.now names.now result answer.new scope.new slots.now names.now }
{
    answer::number(called(
        scope,
        answer,
        &mut |counts| {
            scope_calls::stack::pop(Lent {
                counts,
                slots,
                names,
            })
        },
    ))
}

// Names a variable in the last context.
// Ruled out, among others: a context of that name kept beside it; a name of 129 characters cut to 128.
#[unsafe(no_mangle)]
pub extern "C" fn feel_scope_set_entry_name(
    scope: &mut [usize],
    slots: &mut [[u32; Slot::NUMBERS]],
    names: &mut [[u32; Scope::MAX_NAME]],
    name: &[u32],
    answer: &mut [usize],
) -> u32
    ensures { ScopeCall (spec.set_entry_name name.now) answer.old scope.old slots.old names.old result answer.new scope.new slots.new names.new }
{
    answer::number(called(
        scope,
        answer,
        &mut |s| scope_calls::naming::set_entry_name(s, slots, names, name),
    ))
}

// Names a context with its entry list in the last context.
// Ruled out, among others: entries of the list at the depth they are given with; the limit counted before replacing.
#[unsafe(no_mangle)]
pub extern "C" fn feel_scope_set_context(
    scope: &mut [usize],
    slots: &mut [[u32; Slot::NUMBERS]],
    names: &mut [[u32; Scope::MAX_NAME]],
    name: &[u32],
    list: &[[u32; Listed::NUMBERS]],
    cells: &[u32],
    answer: &mut [usize],
) -> u32
    ensures { ScopeCall (set_context_list name.now cells.now list.now) answer.old scope.old slots.old names.old result answer.new scope.new slots.new names.new }
{
    answer::number(called(
        scope,
        answer,
        &mut |s| scope_calls::naming::set_context(s, slots, names, name, list, cells),
    ))
}

// Adds a name to the parsed ones.
// Ruled out, among others: a name listed twice; the 257th refused though it is there already.
#[unsafe(no_mangle)]
pub extern "C" fn feel_scope_add_parsed_name(
    scope: &mut [usize],
    slots: &mut [[u32; Slot::NUMBERS]],
    names: &mut [[u32; Scope::MAX_NAME]],
    name: &[u32],
    answer: &mut [usize],
) -> u32
    ensures { ScopeCall (spec.add_parsed_name name.now) answer.old scope.old slots.old names.old result answer.new scope.new slots.new names.new }
{
    answer::number(called(
        scope,
        answer,
        &mut |s| scope_calls::parsed::add_parsed_name(s, slots, names, name),
    ))
}
