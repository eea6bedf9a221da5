//! Lists and texts of the tree.

use cm_tree::{BoxedText, Items, Text};
use std::cmp::Ordering;
use std::test::Fail;

#[test]
fn items(rt: HostRuntime) -> Result<(), Fail> {
    let alloc = rt.alloc();
    let mut items = Items::new(alloc);
    let was_empty = items.is_empty();
    items.push(3_u8)?;
    items.push(5)?;
    assert!(rt; was_empty && items.len() == 2 && items.get(1) == Some(&5));
    assert!(rt; items.first() == Some(&3) && items.iter().next_back() == Some(&5));
    let copy = items.clone()?;
    assert!(rt; copy == items && items == Items::from(vec![in alloc; 3, 5]?));
    let last = items.pop();
    assert!(rt; last == Some(5) && items != copy);
    let rest = items.into_vec();
    assert!(rt; rest.as_slice() == [3].as_slice());
    Ok(())
}

#[test]
fn items_in_order(rt: HostRuntime) -> Result<(), Fail> {
    let items = Items::from(vec![in rt.alloc(); 3_u8, 5]?);
    let mut all = 0_u32;
    for item in &items {
        all = all.wrapping_mul(10).wrapping_add(u32::from(*item));
    }
    assert!(rt; all == 35);
    Ok(())
}

#[test]
fn texts(rt: HostRuntime) -> Result<(), Fail> {
    let alloc = rt.alloc();
    let mut text = Text::new(alloc);
    let was_empty = text.is_empty();
    text.push_str("\u{E9}")?;
    assert!(rt; was_empty && text.len() == 2 && text.as_str() == "\u{E9}");
    assert!(rt; text.ends_with('\u{E9}') && text == Text::from_str(alloc, "\u{E9}")?);
    let mut cleared = text.clone()?;
    cleared.clear();
    let string = text.into_string();
    assert!(rt; string.as_str() == "\u{E9}" && cleared.is_empty());
    Ok(())
}

#[test]
fn boxed_texts(rt: HostRuntime) -> Result<(), Fail> {
    let alloc = rt.alloc();
    let text = Text::from(String::from_str(alloc, "\u{E9}")?);
    let boxed = BoxedText::new(alloc, text.clone()?)?;
    let copy = boxed.clone()?;
    assert!(rt; boxed.as_str() == "\u{E9}" && boxed == copy && text.as_str() == boxed.as_str());
    assert!(rt; boxed.is_shared() && boxed.cmp(&copy) == Ordering::Equal);
    let before = BoxedText::new(alloc, Text::from_str(alloc, "e")?)?;
    assert!(rt; !before.is_shared() && before < boxed);
    let again = copy.into_arc().map(BoxedText::from);
    assert!(rt; again.is_some_and(|text| text.as_str() == "\u{E9}"));
    Ok(())
}
