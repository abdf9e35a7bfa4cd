ghost use Rattle.std.specs.Prelude.{◌≡◌, option_map, IfOk};
ghost use Rattle.gn_kinds.specs.Seen.{row_of};
ghost use Rattle.gn_pointers.specs.Pointers.{IsFirst};
ghost use Rattle.gn_pointers.specs.Seen.{pointer_of};
ghost use Rattle.gn_form.specs.Form as is;
ghost use Rattle.gn_form.specs.Order.{InOrder};
ghost use Rattle.gn_form.specs.Walk as walk;
ghost use Rattle.gn_form.specs.Seen.{form_of};
ghost use Rattle.serde_json.specs.View.{view, items_view, members_view};

use crate::fit::{are_links, fits};
use crate::form::Form;
use crate::key::{member_form, row_in_node};
use gn_kinds::Row;
use gn_memory::Memory;
use gn_pointers::Step;
use serde_json::{Map, Value};
use std::alloc::Global;
use std::collections::VecDeque;

/// Returns what the elements of an array must be.
fn item_form(form: Form, items: &[Value]) -> Option<Form>
    ensures { option_map form_of result ≡ is.item_form (form_of form) (items_view items.now) }
{
    match form {
        Form::Groups => Some(Form::Group),
        Form::Sockets => Some(Form::Socket),
        Form::Nodes => Some(Form::Node),
        Form::Input => {
            if are_links(items) {
                return Some(Form::Link);
            }
            None
        }
        _ => None,
    }
}

#[cycle(walk)]
fn first_in(alloc: Global, form: Form, value: &Value) -> Result<Option<VecDeque<Step>>, Memory>
    ensures { IfOk result (λ found. option_map pointer_of found ≡ walk.first_in (form_of form) (view value.now)) }
{
    if !fits(form, value) {
        return Ok(Some(VecDeque::new(alloc)));
    }
    match value {
        Value::Array(items) => match item_form(form, items) {
            Some(inner) => first_item(alloc, inner, items),
            None => Ok(None),
        },
        Value::Object(members) => first_member(alloc, form, row_in_node(value), members),
        _ => Ok(None),
    }
}

#[cycle(walk)]
fn first_item(
    alloc: Global,
    form: Form,
    items: &Vec<Value>,
) -> Result<Option<VecDeque<Step>>, Memory>
    ensures { IfOk result (λ found. option_map pointer_of found ≡ walk.first_item (form_of form) 0 (items_view items.now.items)) }
{
    let mut index: u64 = 0;
    for item in items {
        if let Some(mut pointer) = first_in(alloc, form, item)? {
            pointer.push_front(Step::Index(index))?;
            return Ok(Some(pointer));
        }
        index += 1;
    }
    Ok(None)
}

#[cycle(walk)]
fn first_member(
    alloc: Global,
    form: Form,
    row: Option<&'static Row>,
    members: &Map<String, Value>,
) -> Result<Option<VecDeque<Step>>, Memory>
    ensures { IfOk result (λ found. option_map pointer_of found
        ≡ walk.first_member (is.member_form (form_of form) (option_map (λ row. row_of row.now) row.entry)) (members_view members.now.entries)) }
{
    for (key, member) in members.iter() {
        if let Some(inner) = member_form(form, row, key) {
            if let Some(mut pointer) = first_in(alloc, inner, member)? {
                pointer.push_front(Step::Key(key.clone()?))?;
                return Ok(Some(pointer));
            }
        }
    }
    Ok(None)
}

/// Returns the first pointer of a tree at which what is there is not of its form, and `None` where
/// all is of its form. An object stands before its members, elements go by index, keys by their bytes.
///
/// # Errors
/// [`Memory`] where the allocator gives no more.
pub fn first_misfit(alloc: Global, tree: &Value) -> Result<Option<VecDeque<Step>>, Memory>
    ensures first { InOrder (view tree.now) →
        IfOk result (λ found. IsFirst (is.BreaksForm (view tree.now)) (option_map pointer_of found)) }
    ensures walked { IfOk result (λ found. option_map pointer_of found ≡ walk.first_in is.a_tree (view tree.now)) }
{
    first_in(alloc, Form::Tree, tree)
}
