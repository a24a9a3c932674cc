//! Checks of records with one change each.
use crate::holding::holds;
use crate::scripts::FINISHED_RECORD;
use crate::strikes::RETIRED_RECORD;
use game_core::Countdown;
use match_record::{Key, VerifyFault};
use record_check::verify;
use std::alloc::Global;
use std::test::Fail;

/// A text in a record, the text that replaces it, and the result of the check.
type Change = (&'static str, &'static str, Result<(), VerifyFault>);

/// Replaces the first occurrence of the text in the record.
fn changed(alloc: Global, record: &str, change: Change) -> Result<String, Fail> {
    let (before, behind) = record.split_once(change.0).ok_or("no such text")?;
    let mut text = before.to_string(alloc)?;
    text.push_str(change.1)?;
    text.push_str(behind)?;
    Ok(text)
}

fn is_checked(alloc: Global, heap: u8, record: &str, change: Change) -> Result<bool, Fail> {
    let game = Countdown::new(heap).ok_or("no such game")?;
    let text = changed(alloc, record, change)?;
    Ok(verify(alloc, &game, text.as_bytes()) == change.2)
}

/// Changes to the record of a complete match, in both versions.
const CHANGES: [Change; 7] = [
    ("", "", Ok(())),
    (
        r#"["(heap 2)","(turn blue)"]"#,
        r#"["(heap 1)","(turn blue)"]"#,
        Err(VerifyFault::WrongState(1)),
    ),
    (
        r#"[["(take 1)","noop"]"#,
        r#"[["(take 3)","noop"]"#,
        Err(VerifyFault::Illegal(0, 0)),
    ),
    (
        r#"[["",""],["",""]]"#,
        r#"[["",""],["","TO"]]"#,
        Err(VerifyFault::NotFirst(1, 1)),
    ),
    (r#"[["",""],["",""]]"#, r#"[["TO",""],["",""]]"#, Ok(())),
    ("[0,100]", "[100,0]", Err(VerifyFault::WrongGoals)),
    (
        r#"[0,100],"matchId":"m1","moves":[["(take 1)","noop"],["noop","(take 2)"]],"phase":"finished""#,
        r#"[],"matchId":"m1","moves":[["(take 1)","noop"],["noop","(take 2)"]],"phase":"playing""#,
        Err(VerifyFault::WrongEnd),
    ),
];

#[test]
fn a_change_to_a_record_is_found(rt: HostRuntime) -> Result<(), Fail> {
    let version = (r#","strikes":0,"version":2"#, "", Ok(()));
    let first = changed(rt.alloc(), FINISHED_RECORD, version)?;
    for change in CHANGES {
        let is_so = is_checked(rt.alloc(), 3, FINISHED_RECORD, change)?;
        holds(&rt, is_so, change.1);
        let is_so = is_checked(rt.alloc(), 3, first.as_str(), change)?;
        holds(&rt, is_so, change.1);
    }
    Ok(())
}

#[test]
fn what_is_no_record_is_named(rt: HostRuntime) -> Result<(), Fail> {
    let game = Countdown::new(3).ok_or("no such game")?;
    let found = verify(rt.alloc(), &game, b"[]");
    let wanted = Err(VerifyFault::BadShape(Key::Cause));
    holds(&rt, found == wanted, "no object");
    let found = verify(rt.alloc(), &game, b"{");
    holds(&rt, found == Err(VerifyFault::NotJson), "no JSON");
    Ok(())
}

/// Changes to the record of a match with retired roles.
const STRUCK_CHANGES: [Change; 7] = [
    ("", "", Ok(())),
    (
        r#""strikes":2"#,
        r#""strikes":3"#,
        Err(VerifyFault::WrongRetired(2, 0)),
    ),
    (
        r#""strikes":2"#,
        r#""strikes":1"#,
        Err(VerifyFault::WrongRetired(1, 0)),
    ),
    (
        r#""version":2"#,
        r#""version":1"#,
        Err(VerifyFault::WrongRetired(2, 0)),
    ),
    (
        r#""strikes":2"#,
        r#""strikes":256"#,
        Err(VerifyFault::BadShape(Key::Strikes)),
    ),
    (
        r#""strikes":2,"#,
        "",
        Err(VerifyFault::BadShape(Key::Strikes)),
    ),
    (
        r#""version":2"#,
        r#""version":3"#,
        Err(VerifyFault::BadShape(Key::Version)),
    ),
];

#[test]
fn strikes_are_checked(rt: HostRuntime) -> Result<(), Fail> {
    for change in STRUCK_CHANGES {
        let is_so = is_checked(rt.alloc(), 10, RETIRED_RECORD, change)?;
        holds(&rt, is_so, change.1);
    }
    Ok(())
}
