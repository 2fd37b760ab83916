//! Values that two threads hold, copies of values and sets, what values give up, and an operator.
use js_ops::apply;
use js_value::{
    Event, EventSet, Items, Op, Pairs, SetTree, Text, Value, Whole, copy, event_value, nesting,
    text_value, weight,
};
use std::alloc::Global;
use std::sync::Arc;
use std::test::Fail;
use std::thread::{Threads, join};

fn text(alloc: Global, word: &str) -> Result<Text, Fail> {
    Ok(Text::new(String::from_str(alloc, word)?))
}

fn said(alloc: Global, s: &str) -> Result<Value, Fail> {
    Ok(text_value(alloc, text(alloc, s)?)?)
}

fn whole(n: i64) -> Result<Value, Fail> {
    Ok(Value::Whole(Whole::new(n).ok_or("no whole number")?))
}

fn go(alloc: Global) -> Result<Event, Fail> {
    Ok(Event::new(text(alloc, "go")?, None)?)
}

fn event(alloc: Global) -> Result<Value, Fail> {
    Ok(event_value(alloc, go(alloc)?)?)
}

/// `{"key":go}`
fn fields(alloc: Global) -> Result<Value, Fail> {
    let key = Arc::new(alloc, text(alloc, "key")?)?;
    let fields = vec![in alloc; (key, event(alloc)?)]?;
    Ok(Value::Fields(Pairs::new(alloc, fields)?))
}

/// `[1,{"key":go}]`
fn list_of_fields(alloc: Global) -> Result<Value, Fail> {
    let items = vec![in alloc; whole(1)?, fields(alloc)?]?;
    Ok(Value::List(Items::new(alloc, items)?))
}

/// A list of which one thread reads the weight and lets it go, and another the nesting of its copy.
fn read_by_two<R: Threads>(rt: &R, one: Value, other: Value) -> (u64, u64) {
    join(rt, move || weight(&one), move || nesting(&other))
}

/// The list and its copy are read and let go by two threads, and a third owner, if there is one, is here.
fn weight_and_nesting<R: Threads>(rt: &R, alloc: Global, stays: bool) -> Result<(u64, u64), Fail> {
    let one = list_of_fields(alloc)?;
    let other = copy(&one)?;
    let third = if stays { copy(&one)? } else { Value::Null };
    let found = read_by_two(rt, one, other);
    let _kept = weight(&third);
    Ok(found)
}

#[test]
fn two_threads_hold_one_value(rt: HostRuntime) -> Result<(), Fail> {
    assert_eq!(rt; weight_and_nesting(&rt, rt.alloc(), true)?, (11, 4));
    assert_eq!(rt; weight_and_nesting(&rt, rt.alloc(), false)?, (11, 4));
    Ok(())
}

/// The set of `go` or none.
fn either(alloc: Global) -> Result<EventSet, Fail> {
    let only = EventSet::new(alloc, SetTree::Only(Arc::new(alloc, go(alloc)?)?))?;
    let nothing = EventSet::new(alloc, SetTree::Nothing)?;
    Ok(EventSet::new(alloc, SetTree::Or(only, nothing))?)
}

/// The weight and the nesting of the copy of a set.
fn copied_set(alloc: Global) -> Result<(u64, u64), Fail> {
    let made = either(alloc)?.copy()?;
    Ok((made.weight(), made.nesting()))
}

#[test]
fn the_copy_of_a_set_is_the_set(rt: HostRuntime) -> Result<(), Fail> {
    assert_eq!(rt; copied_set(rt.alloc())?, (6, 3));
    Ok(())
}

/// The text, the list and the event that a value gives up.
fn parts_given_up(alloc: Global) -> Result<(bool, usize, bool), Fail> {
    let text = said(alloc, "ab")?.into_text().map_err(|_| "no text")?;
    let items = list_of_fields(alloc)?.into_list().map_err(|_| "no list")?;
    let event = event(alloc)?.into_event().map_err(|_| "no event")?;
    Ok((text.as_str() == "ab", items.len(), event.same(&go(alloc)?)))
}

#[test]
fn values_give_up_what_they_hold(rt: HostRuntime) -> Result<(), Fail> {
    assert_eq!(rt; parts_given_up(rt.alloc())?, (true, 2, true));
    assert!(rt; matches!(whole(1)?.into_text(), Err(Value::Whole(_))));
    assert!(rt; matches!(whole(1)?.into_list(), Err(Value::Whole(_))));
    assert!(rt; matches!(whole(1)?.into_event(), Err(Value::Whole(_))));
    Ok(())
}

#[test]
fn an_operator_is_applied(rt: HostRuntime) -> Result<(), Fail> {
    let found = apply(rt.alloc(), Op::Subtract, &whole(5)?, &whole(7)?)?;
    assert!(rt; matches!(found, Value::Whole(n) if n.get() == -2));
    Ok(())
}
