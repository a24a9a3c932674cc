//! The service: a thread for each line of the desk, and the end of the service.
ghost use Rattle.std.specs.Prelude.{◌≡◌, ◌≤◌, ◌<◌, length, IfOk};
ghost use denote.Param.Send.{IsSync};
ghost use Rattle.call_history.specs.Limits.{max_lines};
ghost use Rattle.call_history.specs.Lines.{numbers};
ghost use Rattle.match_desk.specs.Headline.{HasHeadline};
ghost use Rattle.match_desk.specs.ManagerValue.{opening};

use crate::connections::Connections;
use crate::conversation::converse;
use crate::rows::Serving;
use call_history::{Closed, LockLine, MAX_ENTRIES, Object, open_lock};
use desk_calls::{Call, Reply};
use game_core::{Counted, Game};
use match_desk::{Manager, close_desk};
use std::alloc::{AllocError, Global};
use std::io::Read;
use std::marker::Brand;
use std::net::Shutdown;
use std::sync::Wait;
use std::sync::ledger::{Blank, Ledger};
use std::thread;
use std::thread::{Threads, join};
use std::time::{Clock, Duration};

/// After refusing a client, the service closes the connection once the client has been silent for this many seconds.
const PATIENCE: u64 = 1;

/// The report about connections that were cut.
const CUT: &str =
    "ggp_manager: the service ended, and cut connections that were still open after 5 seconds";

/// The runtime and the connections of a service.
#[derive(Drop)]
pub struct ServiceSurroundings<'a, R> {
    pub rt: &'a R,
    pub alloc: Global,
    pub connections: &'a Connections<'a>,
}

/// Proves from the bound of `T` that threads may share the value. The contracts of closures need this fact.
fn is_shared<T: Sync>(_value: &T)
    ensures { IsSync T.row }
{}

/// Reads the input to its end, and drops the bytes.
fn drop_rest<R: Wait, I: Read>(rt: &R, reader: &mut Counted<I>) {
    let mut chunk = [0u8; 1_024];
    for _ in rt.forever() {
        match reader.read(&mut chunk) {
            Ok(count) if count > 0 => {}
            _ => break,
        }
    }
}

/// Answers one client after another over the line, until the service ends.
fn attend<O, L: Ledger, R: Clock + Eprint + Wait>(
    around: &ServiceSurroundings<'_, R>,
    serving: &Serving<'_, O, L, R>,
    place: usize,
    line: &mut LockLine<L>,
)
where
    O: Object<Call = Call, Reply = Reply>,
    ensures { line.new.number ≡ line.old.number }
{
    for turn in around.rt.forever() {
        let Some(stream) = around.connections.next(around.rt, place) else {
            break;
        };
        let mut reader = Counted::new(&stream);
        let mut writer = Counted::new(&stream);
        let ending = converse(serving, line, &mut reader, &mut writer);
        if ending.is_stopped() {
            let _ = around.rt.eprintln(ending.words());
            // If the service closed the connection while the client was sending, the system could drop the last row.
            let _ = stream.set_read_timeout(Some(Duration::from_secs(PATIENCE)));
            let _ = stream.shutdown(Shutdown::Write);
            drop_rest(around.rt, &mut reader);
        }
        around.connections.leave(around.rt, place);
    }
}

/// Attends each line in a separate thread.
fn attend_all<O, L, R>(
    around: &ServiceSurroundings<'_, R>,
    serving: &Serving<'_, O, L, R>,
    mut lines: Vec<LockLine<L>>,
) -> Vec<LockLine<L>>
where
    O: Object<Call = Call, Reply = Reply> + Send,
    L: Ledger + Send + Sync,
    R: Clock + Eprint + Threads + Wait + Sync,
    ensures { numbers result.items ≡ numbers lines.items }
{
    is_shared(around.connections);
    is_shared(around);
    is_shared(serving);
    let count = lines.len();
    if count > 0 {
        thread::for_each_mut(
            around.rt,
            lines.as_mut_slice(),
            count,
            &|place, line| attend(around, serving, place, line),
        );
    }
    lines
}

/// Reads the input to its end, and then ends the service.
fn end_at_input<R: Clock + Eprint + Wait, I: Read>(
    around: &ServiceSurroundings<'_, R>,
    reader: &mut Counted<I>,
) {
    drop_rest(around.rt, reader);
    if around.connections.end(around.rt) {
        let _ = around.rt.eprintln(CUT);
    }
}

fn serve_lines<O, L, R, I>(
    around: &ServiceSurroundings<'_, R>,
    serving: &Serving<'_, O, L, R>,
    lines: Vec<LockLine<L>>,
    reader: &mut Counted<I>,
) -> Vec<LockLine<L>>
where
    O: Object<Call = Call, Reply = Reply> + Send,
    L: Ledger + Send + Sync,
    R: Clock + Eprint + Threads + Wait + Sync,
    I: Read,
    ensures { numbers result.items ≡ numbers lines.items }
{
    is_shared(around.connections);
    is_shared(around);
    is_shared(serving);
    let (lines, ()) = join(
        around.rt,
        move || attend_all(around, serving, lines),
        || end_at_input(around, reader),
    );
    lines
}

fn serve_named<G, L, R, I>(
    around: &ServiceSurroundings<'_, R>,
    blank: Blank,
    manager: Manager<G>,
    lines: u32,
    reader: &mut Counted<I>,
) -> Result<Closed<Manager<G>>, AllocError>
where
    G: Game + Drop + Send,
    G::State: Send,
    G::Move: Send,
    L: Ledger + Send + Sync,
    R: Clock + Eprint + Threads + Wait + Sync,
    I: Read,
    requires name { blank.name ≡ L.name }
    requires parts { blank.parts ≡ L.parts }
    requires one_each { blank.parts ≡ lines }
    requires lines { (1 ≤ lines) × (lines ≤ max_lines) }
    requires opening { opening manager ≡ manager }
    ensures { IfOk result (λ c. HasHeadline G.rules lines c.object c.history.items c.made_by_line.items) }
{
    let opened = open_lock::<Manager<G>, L>(around.alloc, blank, manager, MAX_ENTRIES, lines);
    let Ok((desk, lines)) = opened else {
        return Err(AllocError);
    };
    let serving = Serving {
        rt: around.rt,
        alloc: around.alloc,
        desk: &desk,
    };
    let lines = serve_lines(around, &serving, lines, reader);
    match close_desk(desk, lines) {
        Ok(closed) => Ok(closed),
        Err(_) => unreachable!(),
    }
}

/// Opens a desk with these games and this many lines, serves it over the connections until the input ends, and closes
/// it.
pub fn serve_desk<G, R, I>(
    around: &ServiceSurroundings<'_, R>,
    games: Vec<G>,
    lines: u32,
    reader: &mut Counted<I>,
) -> Result<Closed<Manager<G>>, AllocError>
where
    G: Game + Drop + Send,
    G::State: Send,
    G::Move: Send,
    R: Clock + Eprint + Threads + Wait + Sync,
    I: Read,
    requires { (1 ≤ lines) × (lines ≤ max_lines) }
    ensures { IfOk result (λ c. HasHeadline G.rules lines c.object c.history.items c.made_by_line.items) }
{
    let manager = Manager::new(around.alloc, games)?;
    serve_named::<G, Brand, R, I>(around, Blank::new(lines as u64), manager, lines, reader)
}
