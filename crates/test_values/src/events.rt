//! Copies of events and of their data, what events give up, and bytes that are none.
use js_value::{Data, Event, EventError, Text, Whole, copy_data, data_text, event_of};
use std::alloc::Global;
use std::test::Fail;

fn text(alloc: Global, word: &str) -> Result<Text, Fail> {
    Ok(Text::new(String::from_str(alloc, word)?))
}

fn event(alloc: Global, name: &str, number: i64) -> Result<Event, Fail> {
    let number = Whole::new(number).ok_or("no whole number")?;
    Ok(Event::new(text(alloc, name)?, Some(Data::Whole(number)))?)
}

/// Whether the copy of this event is the event of this name with the number 5.
fn copies_as_five(alloc: Global, made: &Event, name: &str) -> Result<bool, Fail> {
    Ok(made.copy()?.same(&event(alloc, name, 5)?))
}

/// Whether the copy of the event `go` with the number is the event of this name with the number 5.
fn copies(alloc: Global, number: i64, name: &str) -> Result<bool, Fail> {
    copies_as_five(alloc, &event(alloc, "go", number)?, name)
}

fn number_in(tree: &Data) -> Option<i64> {
    match tree {
        Data::Whole(number) => Some(number.get()),
        _ => None,
    }
}

fn copied_number(event: &Event) -> Result<Option<i64>, Fail> {
    Ok(number_in(&copy_data(event.data().ok_or("no data")?)?))
}

/// Whether the copy of the data of an event with the number is the number.
fn copies_number(alloc: Global, number: i64) -> Result<bool, Fail> {
    Ok(copied_number(&event(alloc, "go", number)?)? == Some(number))
}

#[test]
fn copies_are_the_same(rt: HostRuntime) -> Result<(), Fail> {
    assert!(rt; copies(rt.alloc(), 5, "go")?);
    assert!(rt; !copies(rt.alloc(), 5, "no")?);
    assert!(rt; !copies(rt.alloc(), -7, "go")?);
    assert!(rt; copies_number(rt.alloc(), -7)?);
    Ok(())
}

/// The name and the text of the data, one after the other.
fn parts_shown(alloc: Global, event: Event) -> Result<String, Fail> {
    let (name, extra) = event.into_parts();
    let mut shown = name.into_string();
    if let Some(data) = &extra {
        shown.push_str(" ")?;
        shown.push_str(data_text(alloc, data)?.as_str())?;
    }
    Ok(shown)
}

#[test]
fn an_event_gives_up_its_name_and_its_data(rt: HostRuntime) -> Result<(), Fail> {
    let alloc = rt.alloc();
    let made = event_of(alloc, r#"["é",{"b":[1,"\u000b"],"a":{}}]"#.as_bytes())?;
    let shown = parts_shown(alloc, made)?;
    assert!(rt; shown.as_str() == r#"é {"a":{},"b":[1,"\u000b"]}"#);
    assert!(rt; matches!(event_of(alloc, b""), Err(EventError::NotEvent)));
    Ok(())
}
