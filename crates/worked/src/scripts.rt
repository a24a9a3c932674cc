//! Scripts of Countdown, with their records.
use crate::holding::holds;
use crate::script::is_counted_down;
use game_commands::answer_script;
use game_core::Countdown;
use std::test::Fail;

/// A complete match of Countdown with a heap of three.
pub const FINISHED: &str = "open m1 0 10 5 ann bob -> opened
next m1 0 -> owe 0 start
submit m1 0 0 READY -> taken
next m1 0 -> hold 0
submit m1 1 0 READY -> taken
next m1 0 -> owe 1 play NIL
submit m1 0 1 (take 1) -> taken
submit m1 1 1 noop -> taken
next m1 1 -> owe 2 play ((take 1) noop)
submit m1 0 2 noop -> taken
submit m1 1 2 (take 2) -> taken
next m1 0 -> owe 3 stop (noop (take 2))
submit m1 0 3 DONE -> taken
submit m1 1 3 DONE -> taken
next m1 0 -> over
query m1 -> status finished round 3 turns 2 substitutions 0
";

pub const FINISHED_RECORD: &str =
    r#"{"cause":null,"endMarks":["",""],"errors":[["",""],["",""]],"goalValues":[0,100],"matchId":"m1","moves":[["(take 1)","noop"],["noop","(take 2)"]],"phase":"finished","playClock":5,"players":["ann","bob"],"roles":["red","blue"],"startClock":10,"startMarks":["",""],"states":[["(heap 3)","(turn red)"],["(heap 2)","(turn blue)"],["(heap 0)","(turn red)"]],"strikes":0,"version":2}
"#;

/// Answers that are illegal, unreadable or missing, with a heap of ten.
const JUDGED: &str = "open m 0 1 1 ann bob -> opened
submit m 0 0 READY -> taken
submit m 1 0 READY -> taken
submit m 0 1 (Take 3) -> taken
submit m 1 1 noop -> taken
miss m 0 2 silent -> taken
submit m 1 2 (take -> taken
submit m 0 3 noop -> taken
miss m 1 3 broken -> taken
query m -> status playing round 4 turns 3 substitutions 5
";

const JUDGED_RECORD: &str =
    r#"{"cause":null,"endMarks":[null,null],"errors":[["IL (take 3)",""],["TO","IL ?"],["IL noop","CE"]],"goalValues":[],"matchId":"m","moves":[["(take 1)","noop"],["noop","(take 1)"],["(take 1)","noop"]],"phase":"playing","playClock":1,"players":["ann","bob"],"roles":["red","blue"],"startClock":1,"startMarks":["",""],"states":[["(heap 10)","(turn red)"],["(heap 9)","(turn blue)"],["(heap 8)","(turn red)"],["(heap 7)","(turn blue)"]],"strikes":0,"version":2}
"#;

/// Answers that spell legal moves in other ways, or two moves at once, with a heap of ten.
const SPELLED: &str = "open m 0 1 1 ann bob -> opened
submit m 0 0 READY -> taken
submit m 1 0 READY -> taken
submit m 0 1 ( TAKE 2 ) ; two -> taken
submit m 1 1 NOOP -> taken
next m 0 -> owe 2 play ((take 2) noop)
query m -> status playing round 2 turns 1 substitutions 0
submit m 1 2 (take 2) (take 1) -> taken
submit m 0 2 noop -> taken
next m 0 -> owe 3 play (noop (take 1))
query m -> status playing round 3 turns 2 substitutions 1
";

const SPELLED_RECORD: &str =
    r#"{"cause":null,"endMarks":[null,null],"errors":[["",""],["","IL ?"]],"goalValues":[],"matchId":"m","moves":[["(take 2)","noop"],["noop","(take 1)"]],"phase":"playing","playClock":1,"players":["ann","bob"],"roles":["red","blue"],"startClock":1,"startMarks":["",""],"states":[["(heap 10)","(turn red)"],["(heap 8)","(turn blue)"],["(heap 7)","(turn red)"]],"strikes":0,"version":2}
"#;

/// Answers that are repeated, late, for an unknown role or for an unknown match, with a heap of three.
const REFUSED: &str = "open m 0 1 1 ann bob -> opened
submit m 0 0 READY -> taken
submit m 1 0 READY -> taken
submit m 0 1 (take 1) -> taken
miss m 0 1 silent -> refused twice
miss m 1 1 silent -> taken
submit m 1 1 noop -> refused stale 2
submit m 7 1 noop -> refused norole
submit x 0 1 noop -> refused nomatch
";

const REFUSED_RECORD: &str =
    r#"{"cause":null,"endMarks":[null,null],"errors":[["","TO"]],"goalValues":[],"matchId":"m","moves":[["(take 1)","noop"]],"phase":"playing","playClock":1,"players":["ann","bob"],"roles":["red","blue"],"startClock":1,"startMarks":["",""],"states":[["(heap 3)","(turn red)"],["(heap 2)","(turn blue)"]],"strikes":0,"version":2}
"#;

/// An abort during a turn, with a heap of three.
const ABORTED: &str = "open m 0 1 1 ann bob -> opened
submit m 0 0 READY -> taken
submit m 1 0 READY -> taken
submit m 0 1 (take 1) -> taken
abort m -> aborting
submit m 1 1 noop -> refused stale 2
next m 0 -> owe 2 abort
abort m -> refused ended
submit m 0 2 ok -> taken
miss m 1 2 silent -> taken
next m 0 -> over
submit m 0 2 ok -> refused over
query m -> status aborted round 2 turns 0 substitutions 0
";

const ABORTED_RECORD: &str =
    r#"{"cause":"asked","endMarks":["","TO"],"errors":[],"goalValues":[],"matchId":"m","moves":[],"phase":"aborted","playClock":1,"players":["ann","bob"],"roles":["red","blue"],"startClock":1,"startMarks":["",""],"states":[["(heap 3)","(turn red)"]],"strikes":0,"version":2}
"#;

/// An abort before the players are ready, with a heap of three.
const NOT_STARTED: &str = "open m 0 1 1 ann bob -> opened
abort m -> aborting
next m 0 -> owe 1 abort
submit m 0 0 READY -> refused stale 1
";

const NOT_STARTED_RECORD: &str =
    r#"{"cause":"asked","endMarks":[null,null],"errors":[],"goalValues":[],"matchId":"m","moves":[],"phase":"aborting","playClock":1,"players":["ann","bob"],"roles":["red","blue"],"startClock":1,"startMarks":[null,null],"states":[["(heap 3)","(turn red)"]],"strikes":0,"version":2}
"#;

/// Matches that cannot be opened, each for the first reason that applies, with a heap of three.
const NOT_OPENED: &str = "open m 0 1 1 ann bob -> opened
open m 0 1 1 ann -> refused idused
open m! 9 0 0 -> refused badid
open n 9 0 0 -> refused nogame
open n 0 0 1 ann -> refused wrongplayers
open n 0 0 1 ann b@b -> refused badname
open n 0 0 1 ann bob -> refused badclock
";

const NOT_OPENED_RECORD: &str =
    r#"{"cause":null,"endMarks":[null,null],"errors":[],"goalValues":[],"matchId":"m","moves":[],"phase":"starting","playClock":1,"players":["ann","bob"],"roles":["red","blue"],"startClock":1,"startMarks":[null,null],"states":[["(heap 3)","(turn red)"]],"strikes":0,"version":2}
"#;

#[test]
fn scripts_have_their_replies_and_records(rt: HostRuntime) -> Result<(), Fail> {
    let table = [
        (3, FINISHED, FINISHED_RECORD),
        (10, JUDGED, JUDGED_RECORD),
        (10, SPELLED, SPELLED_RECORD),
        (3, REFUSED, REFUSED_RECORD),
        (3, ABORTED, ABORTED_RECORD),
        (3, NOT_STARTED, NOT_STARTED_RECORD),
        (3, NOT_OPENED, NOT_OPENED_RECORD),
    ];
    for (heap, script, records) in table {
        let is_so = is_counted_down(rt.alloc(), heap, script, records)?;
        holds(&rt, is_so, script);
    }
    Ok(())
}

#[test]
fn lines_that_are_no_calls_are_counted(rt: HostRuntime) -> Result<(), Fail> {
    let alloc = rt.alloc();
    let mut games = Vec::new(alloc);
    games.push(Countdown::new(3).ok_or("no such game")?)?;
    let answers = answer_script(alloc, games, b"frob\nquery m\nnext m x\n")?;
    let wanted = b"badline\nrefused nomatch\nbadline\n";
    holds(&rt, answers.bad_lines == 2, "two bad lines");
    holds(
        &rt,
        answers.text.as_slice() == wanted.as_slice(),
        "the replies",
    );
    Ok(())
}
