//! Matches that test when a role is retired for replaced moves in a row.
use crate::holding::holds;
use crate::script::is_counted_down;
use std::test::Fail;

/// Red is retired after two turns, and blue later. The heap is ten.
const RETIRED: &str = "strict m 0 1 1 2 ann bob -> opened
submit m 0 0 READY -> taken
submit m 1 0 READY -> taken
miss m 0 1 silent -> taken
submit m 1 1 noop -> taken
submit m 0 2 (take 1) -> taken
submit m 1 2 (take 1) -> taken
next m 0 -> hold 3
submit m 0 3 (take 2) -> refused twice
submit m 1 3 noop -> taken
next m 1 -> owe 4 play ((take 1) noop)
query m -> status playing round 4 turns 3 substitutions 3
miss m 1 4 silent -> taken
miss m 1 5 broken -> taken
next m 0 -> owe 6 abort
query m -> status aborting round 6 turns 5 substitutions 7
";

pub const RETIRED_RECORD: &str =
    r#"{"cause":"allretired","endMarks":[null,null],"errors":[["TO",""],["IL (take 1)",""],["RT",""],["RT","TO"],["RT","CE"]],"goalValues":[],"matchId":"m","moves":[["(take 1)","noop"],["noop","(take 1)"],["(take 1)","noop"],["noop","(take 1)"],["(take 1)","noop"]],"phase":"aborting","playClock":1,"players":["ann","bob"],"roles":["red","blue"],"startClock":1,"startMarks":["",""],"states":[["(heap 10)","(turn red)"],["(heap 9)","(turn blue)"],["(heap 8)","(turn red)"],["(heap 7)","(turn blue)"],["(heap 6)","(turn red)"],["(heap 5)","(turn blue)"]],"strikes":2,"version":2}
"#;

/// Both roles are retired in the turn that ends the game. The heap is one.
const RETIRED_AT_THE_END: &str = "strict m 0 1 1 1 ann bob -> opened
submit m 0 0 READY -> taken
submit m 1 0 READY -> taken
miss m 0 1 silent -> taken
miss m 1 1 silent -> taken
next m 0 -> owe 2 stop ((take 1) noop)
";

const RETIRED_AT_THE_END_RECORD: &str =
    r#"{"cause":null,"endMarks":[null,null],"errors":[["TO","TO"]],"goalValues":[100,0],"matchId":"m","moves":[["(take 1)","noop"]],"phase":"stopping","playClock":1,"players":["ann","bob"],"roles":["red","blue"],"startClock":1,"startMarks":["",""],"states":[["(heap 1)","(turn red)"],["(heap 0)","(turn blue)"]],"strikes":1,"version":2}
"#;

/// Two replaced moves that are not in a row retire no role. The heap is ten.
const NOT_IN_A_ROW: &str = "strict m 0 1 1 2 ann bob -> opened
submit m 0 0 READY -> taken
submit m 1 0 READY -> taken
miss m 0 1 silent -> taken
submit m 1 1 noop -> taken
submit m 0 2 noop -> taken
submit m 1 2 (take 1) -> taken
miss m 0 3 silent -> taken
submit m 1 3 noop -> taken
next m 0 -> owe 4 play ((take 1) noop)
";

const NOT_IN_A_ROW_RECORD: &str =
    r#"{"cause":null,"endMarks":[null,null],"errors":[["TO",""],["",""],["TO",""]],"goalValues":[],"matchId":"m","moves":[["(take 1)","noop"],["noop","(take 1)"],["(take 1)","noop"]],"phase":"playing","playClock":1,"players":["ann","bob"],"roles":["red","blue"],"startClock":1,"startMarks":["",""],"states":[["(heap 10)","(turn red)"],["(heap 9)","(turn blue)"],["(heap 8)","(turn red)"],["(heap 7)","(turn blue)"]],"strikes":2,"version":2}
"#;

/// Too many strikes are refused only if the clocks are valid. The heap is three.
const TOO_MANY: &str = "strict m 0 0 1 256 ann bob -> refused badclock
strict m 0 1 1 256 ann bob -> refused badstrikes
strict m 0 1 1 255 ann bob -> opened
";

const TOO_MANY_RECORD: &str =
    r#"{"cause":null,"endMarks":[null,null],"errors":[],"goalValues":[],"matchId":"m","moves":[],"phase":"starting","playClock":1,"players":["ann","bob"],"roles":["red","blue"],"startClock":1,"startMarks":[null,null],"states":[["(heap 3)","(turn red)"]],"strikes":255,"version":2}
"#;

#[test]
fn roles_are_retired_by_strikes_in_a_row(rt: HostRuntime) -> Result<(), Fail> {
    let table = [
        (10, RETIRED, RETIRED_RECORD),
        (1, RETIRED_AT_THE_END, RETIRED_AT_THE_END_RECORD),
        (10, NOT_IN_A_ROW, NOT_IN_A_ROW_RECORD),
        (3, TOO_MANY, TOO_MANY_RECORD),
    ];
    for (heap, script, records) in table {
        let is_so = is_counted_down(rt.alloc(), heap, script, records)?;
        holds(&rt, is_so, script);
    }
    Ok(())
}
