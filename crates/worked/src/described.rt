//! Described games, played by scripts.
use crate::holding::holds;
use crate::script::{is_played, packed};
use crate::scripts::{FINISHED, FINISHED_RECORD};
use ground_rules::load;
use kif_text::read_all;
use std::alloc::{AllocError, Global};
use std::test::Fail;

const COUNTDOWN_RULES: &[u8] = b"(role red) (role blue)
(init (heap 3)) (init (turn red))
(<= busy (not (true (heap 0))))
(<= (legal red (take 1)) (true (turn red)) busy)
(<= (legal red (take 2)) (true (turn red)) busy (not (true (heap 1))))
(<= (legal red noop) (true (turn blue)) busy)
(<= (legal blue (take 1)) (true (turn blue)) busy)
(<= (legal blue (take 2)) (true (turn blue)) busy (not (true (heap 1))))
(<= (legal blue noop) (true (turn red)) busy)
(<= one (or (does red (take 1)) (does blue (take 1))))
(<= two (or (does red (take 2)) (does blue (take 2))))
(<= (next (turn blue)) (true (turn red)))
(<= (next (turn red)) (true (turn blue)))
(<= (next (heap 2)) (true (heap 3)) one)
(<= (next (heap 1)) (true (heap 3)) two)
(<= (next (heap 1)) (true (heap 2)) one)
(<= (next (heap 0)) (true (heap 2)) two)
(<= (next (heap 0)) (true (heap 1)) one)
(<= terminal (true (heap 0)))
(<= (goal red 100) (true (heap 0)) (true (turn blue)))
(<= (goal red 0) (true (heap 0)) (true (turn red)))
(<= (goal blue 100) (true (heap 0)) (true (turn red)))
(<= (goal blue 0) (true (heap 0)) (true (turn blue)))";

/// Whether a script on the game of these rules ends in these records, both for the loaded game and for its packed form.
fn is_played_by_both(
    alloc: Global,
    rules: &[u8],
    script: &str,
    records: &str,
) -> Result<bool, Fail> {
    let sentences = read_all(alloc, rules)?;
    let loaded = load(alloc, sentences.as_slice())?;
    let is_loaded = is_played(alloc, loaded, script, records)?;
    Ok(is_loaded && is_played(alloc, packed(alloc, rules)?, script, records)?)
}

#[test]
fn described_countdown_is_countdown(rt: HostRuntime) -> Result<(), Fail> {
    let is_so = is_played_by_both(rt.alloc(), COUNTDOWN_RULES, FINISHED, FINISHED_RECORD)?;
    holds(&rt, is_so, "a described game");
    Ok(())
}

/// Rules, a script, and the records at the end of the script.
type Example = (&'static str, &'static str, &'static str);

const ENDED_AT_ONCE: Example = (
    "(role solo) (init done) (<= terminal (true done)) (goal solo 50) (legal solo rest)",
    "open t 0 1 1 ann -> opened
submit t 0 0 ready -> taken
next t 0 -> owe 1 stop NIL
submit t 0 1 done -> taken
query t -> status finished round 1 turns 0 substitutions 0
",
    r#"{"cause":null,"endMarks":[""],"errors":[],"goalValues":[50],"matchId":"t","moves":[],"phase":"finished","playClock":1,"players":["ann"],"roles":["solo"],"startClock":1,"startMarks":[""],"states":[["done"]],"strikes":0,"version":2}
"#,
);

const NO_MOVE: Example = (
    "(role a) (init s) (<= (legal a go) (true s)) (<= (next u) (does a go)) (<= terminal (true end))",
    "open m 0 1 1 ann -> opened
submit m 0 0 x -> taken
submit m 0 1 go -> taken
next m 0 -> owe 2 abort
submit m 0 2 x -> taken
query m -> status aborted round 2 turns 1 substitutions 0
",
    r#"{"cause":"nolegal 0","endMarks":[""],"errors":[[""]],"goalValues":[],"matchId":"m","moves":[["go"]],"phase":"aborted","playClock":1,"players":["ann"],"roles":["a"],"startClock":1,"startMarks":[""],"states":[["s"],["u"]],"strikes":0,"version":2}
"#,
);

const TWO_GOALS: Example = (
    "(role a) (init s) (<= (legal a go) (true s)) (<= (next end) (does a go)) (<= terminal (true end)) (goal a 1) (goal a 2)",
    "open m 0 1 1 ann -> opened
submit m 0 0 x -> taken
submit m 0 1 go -> taken
next m 0 -> owe 2 abort
submit m 0 2 x -> taken
query m -> status aborted round 2 turns 1 substitutions 0
",
    r#"{"cause":"nogoal 0","endMarks":[""],"errors":[[""]],"goalValues":[],"matchId":"m","moves":[["go"]],"phase":"aborted","playClock":1,"players":["ann"],"roles":["a"],"startClock":1,"startMarks":[""],"states":[["s"],["end"]],"strikes":0,"version":2}
"#,
);

#[test]
fn games_end_or_are_aborted(rt: HostRuntime) -> Result<(), Fail> {
    for (rules, script, records) in [ENDED_AT_ONCE, NO_MOVE, TWO_GOALS] {
        let is_so = is_played_by_both(rt.alloc(), rules.as_bytes(), script, records)?;
        holds(&rt, is_so, rules);
    }
    Ok(())
}

/// The largest number of turns of a match.
const MOST_TURNS: u32 = 10_000;

/// The script of a match with one role. The role plays `MOST_TURNS` turns, and then asks what the match owes to it.
fn long_script(alloc: Global) -> Result<String, AllocError> {
    let mut script = "open m 0 1 1 ann -> opened\nsubmit m 0 0 x -> taken\n".to_string(alloc)?;
    for round in 1..=MOST_TURNS {
        let line = format!(in alloc; "submit m 0 {round} go -> taken\n")?;
        script.push_str(line.as_str())?;
    }
    script.push_str("next m 0 -> owe 10001 abort\n")?;
    Ok(script)
}

/// The record of that match. All turns are equal, and so are all states.
fn long_record(alloc: Global) -> Result<String, AllocError> {
    let mut record = r#"{"cause":"toolong","endMarks":[null],"errors":["#.to_string(alloc)?;
    push_repeated(&mut record, "[\"\"]", MOST_TURNS)?;
    record.push_str(r#"],"goalValues":[],"matchId":"m","moves":["#)?;
    push_repeated(&mut record, "[\"go\"]", MOST_TURNS)?;
    record.push_str(
        r#"],"phase":"aborting","playClock":1,"players":["ann"],"roles":["a"],"startClock":1,"startMarks":[""],"states":["#,
    )?;
    push_repeated(&mut record, "[\"s\"]", MOST_TURNS + 1)?;
    record.push_str("],\"strikes\":0,\"version\":2}\n")?;
    Ok(record)
}

/// Appends a text `count` times, separated by commas.
fn push_repeated(record: &mut String, text: &str, count: u32) -> Result<(), AllocError> {
    for place in 0..count {
        if place > 0 {
            record.push_str(",")?;
        }
        record.push_str(text)?;
    }
    Ok(())
}

#[test]
fn ten_thousand_turns_are_the_most(rt: HostRuntime) -> Result<(), Fail> {
    let alloc = rt.alloc();
    let game = packed(alloc, b"(role a) (legal a go) (init s) (next s)")?;
    let (script, record) = (long_script(alloc)?, long_record(alloc)?);
    let is_so = is_played(alloc, game, script.as_str(), record.as_str())?;
    holds(&rt, is_so, "10,000 turns");
    Ok(())
}
