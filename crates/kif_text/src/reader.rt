//! The reader. It makes one pass over the bytes and keeps the open lists on a stack.
ghost use Rattle.std.specs.Prelude.{◌≡◌, ◌&&◌, ◌==◌, length};
ghost use Rattle.game_core.specs.Bytes.{is_white, is_atom_byte};
ghost use Rattle.game_core.specs.Expression.{max_depth};
ghost use Rattle.kif_text.specs.View.{views};
ghost use Rattle.kif_text.specs.Machine.{start, open_list, act, step, close_list, finish, count_of, is_second, one_step};
ghost use Rattle.kif_text.specs.Internal.Following.{state_of, flush, Reaches, Gives};

use crate::expr::Expr;
use crate::fault::KifFault;
use game_core::{MAX_DEPTH, Text};
use std::alloc::Global;
use std::mem;

/// An open list: the expressions before it at its level, and the offset of its parenthesis.
#[derive(Drop)]
pub(crate) struct OpenList {
    before: Vec<Expr>,
    at: usize,
}

/// The state of the reader: the open lists, the complete expressions at the innermost level, the bytes of an unfinished
/// atom, and whether a comment is unfinished.
#[derive(Drop)]
pub(crate) struct Reader {
    levels: Vec<OpenList>,
    here: Vec<Expr>,
    word: Vec<u8>,
    in_comment: bool,
}

fn is_white(byte: u8) -> bool
    ensures { result ≡ is_white byte }
{
    matches!(byte, b' ' | b'\t' | b'\r' | b'\n')
}

/// Whether an atom may contain the byte.
pub fn is_atom_byte(byte: u8) -> bool
    ensures { result ≡ is_atom_byte byte }
{
    byte.is_ascii_graphic() && !matches!(byte, b'(' | b')' | b';')
}

impl Reader {
    pub(crate) fn new(alloc: Global) -> Reader
        ensures { state_of result ≡ start }
    {
        Reader {
            levels: Vec::new(alloc),
            here: Vec::new(alloc),
            word: Vec::new(alloc),
            in_comment: false,
        }
    }

    /// Ends the unfinished atom, if there is one.
    fn flush(&mut self, alloc: Global) -> Result<(), KifFault>
        ensures { Reaches result (state_of self.new) (flush (state_of self.old)) }
    {
        if self.word.is_empty() {
            return Ok(());
        }
        let bytes = mem::replace(&mut self.word, Vec::new(alloc));
        self.here.push(Expr::Atom(Text { bytes }))?;
        Ok(())
    }

    /// Opens a list at this offset.
    fn open(&mut self, alloc: Global, at: usize) -> Result<(), KifFault>
        ensures { Reaches result (state_of self.new) (open_list max_depth (state_of self.old) at) }
    {
        if self.levels.len() >= MAX_DEPTH {
            return Err(KifFault::TooDeep(at));
        }
        let before = mem::replace(&mut self.here, Vec::new(alloc));
        self.levels.push(OpenList { before, at })?;
        Ok(())
    }

    /// Closes the innermost list at this offset.
    fn close(&mut self, at: usize) -> Result<(), KifFault>
        ensures { Reaches result (state_of self.new) (close_list (state_of self.old) at) }
    {
        let Some(level) = self.levels.pop() else {
            return Err(KifFault::Unopened(at));
        };
        let members = mem::replace(&mut self.here, level.before);
        self.here.push(Expr::List(members))?;
        Ok(())
    }

    /// Reads a byte outside comments that is not an atom byte.
    fn act(&mut self, alloc: Global, at: usize, byte: u8) -> Result<(), KifFault>
        ensures { Reaches result (state_of self.new) (act max_depth (state_of self.old) at byte) }
    {
        if byte == b';' {
            self.in_comment = true;
            Ok(())
        } else if byte == b'(' {
            self.open(alloc, at)
        } else if byte == b')' {
            self.close(at)
        } else if is_white(byte) {
            Ok(())
        } else {
            Err(KifFault::BadByte(at))
        }
    }

    /// Reads the byte at this offset.
    pub(crate) fn step(&mut self, alloc: Global, at: usize, byte: u8) -> Result<(), KifFault>
        ensures { Reaches result (state_of self.new) (step max_depth (state_of self.old) at byte) }
    {
        if self.in_comment {
            self.in_comment = byte != b'\n';
            return Ok(());
        }
        if is_atom_byte(byte) {
            self.word.push(byte)?;
            return Ok(());
        }
        self.flush(alloc)?;
        self.act(alloc, at, byte)
    }

    fn is_outside(&self) -> bool
        ensures { result ≡ (length (state_of self.now).levels == 0) }
    {
        self.levels.is_empty()
    }

    /// Whether no expression has begun at the innermost level.
    #[tactic(auto, using(crate::proofs::Views::count_of_views))]
    fn is_fresh(&self) -> bool
        ensures { result ≡ (count_of (state_of self.now).here == 0
            && length (state_of self.now).word == 0) }
    {
        self.here.is_empty() && self.word.is_empty()
    }

    /// Whether the byte begins a second expression outside all lists.
    fn is_second(&self, byte: u8) -> bool
        ensures { result ≡ is_second (state_of self.now) byte }
    {
        if self.in_comment || !self.is_outside() {
            return false;
        }
        let begins = byte == b'(' || (is_atom_byte(byte) && self.word.is_empty());
        begins && !self.is_fresh()
    }

    /// Reads the byte at this offset of a text that should have one expression.
    pub(crate) fn single_step(&mut self, alloc: Global, at: usize, byte: u8) -> Result<(), KifFault>
        ensures { Reaches result (state_of self.new)
            (one_step max_depth (state_of self.old) at byte) }
    {
        if self.is_second(byte) {
            return Err(KifFault::More(at));
        }
        self.step(alloc, at, byte)
    }

    /// Ends the text, and returns the expressions.
    pub(crate) fn finish(mut self, alloc: Global) -> Result<Vec<Expr>, KifFault>
        ensures { Gives (λ v. views v.items) result (finish (state_of self)) }
    {
        self.flush(alloc)?;
        if let Some(level) = self.levels.pop() {
            return Err(KifFault::Unclosed(level.at));
        }
        Ok(self.here)
    }
}
