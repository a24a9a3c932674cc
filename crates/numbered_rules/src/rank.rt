//! Ranks the derived atoms: each atom comes after the atoms that it needs.
ghost use Rattle.std.specs.Prelude.{◌≡◌, ◌<◌, ◌+◌, ◌≤◌, ℕ, length, IfOk, OnOk, Some, None, slice_index, false, true, IfSome, IfNone, ◌-◌, ◌≢◌};
ghost use Rattle.numbered_rules.specs.Order.{IsGraph, IsGraphAcyclic, IsRanking, needs_at};
ghost use Rattle.numbered_rules.specs.Internal.Search.{IsSearching, IsLinked, mark, work, IsPlaced, AreOnlyOld};
ghost use Rattle.numbered_rules.specs.declared.rank.Mark.TheVariants.{New, Open, Done};

use std::alloc::{AllocError, Global};
use std::marker::Model;

/// The atoms in the bodies of an atom's rules. Contracts see a list.
#[derive(Drop)]
pub struct Needs {
    pub atoms: Vec<usize>,
}

impl Model for Needs {
    ghost use Rattle.std.specs.Prelude.{List, ℕ};

    ghost Value = { List ℕ };

    ghost view = { λ n. n.atoms.items };
}

impl Needs {
    /// The atoms.
    pub fn as_slice(&self) -> &[usize]
        ensures { result.now ≡ self.now }
    {
        self.atoms.as_slice()
    }
}

/// The state of an atom in the search: not met yet, on the path at this index, or in the order at this place.
#[derive(Clone, Copy)]
pub enum Mark {
    New,
    Open(usize),
    Done(usize),
}

/// A depth-first search for a ranking: the mark of each atom, how many of its needs are done, the path to the current atom,
/// and the order so far.
#[derive(Drop)]
pub struct Search {
    marks: Vec<Mark>,
    next: Vec<usize>,
    path: Vec<usize>,
    order: Vec<usize>,
}

impl Search {
    /// Adds an atom that was not met before to the path.
    fn open(&mut self, needs: &[Needs], atom: usize) -> Result<(), AllocError>
        requires search { IsSearching needs.now self.old.marks.items self.old.next.items self.old.path.items self.old.order.items }
        requires within { atom < length needs.now }
        requires fresh { mark self.old.marks.items atom ≡ New }
        requires linked { IsLinked needs.now self.old.path.items atom }
        ensures search { OnOk result (IsSearching needs.now self.new.marks.items self.new.next.items self.new.path.items self.new.order.items) }
        ensures met { OnOk result (AreOnlyOld self.old.marks.items self.new.marks.items) }
        ensures here { OnOk result (mark self.new.marks.items atom ≡ Open (length self.old.path.items)) }
        ensures work { OnOk result (work self.new.marks.items self.new.path.items + 1 ≡ work self.old.marks.items self.old.path.items) }
    {
        let place = self.path.len();
        self.path.push(atom)?;
        self.marks[atom] = Mark::Open(place);
        Ok(())
    }

    /// Moves the last atom of the path to the order. All its needs have a place already.
    fn finish(&mut self, needs: &[Needs]) -> Result<(), AllocError>
        requires search { IsSearching needs.now self.old.marks.items self.old.next.items self.old.path.items self.old.order.items }
        requires some { 0 < length self.old.path.items }
        requires placed { (i : ℕ) → i < length (needs_at needs.now (slice_index self.old.path.items (length self.old.path.items - 1))) → IsPlaced self.old.marks.items (slice_index (needs_at needs.now (slice_index self.old.path.items (length self.old.path.items - 1))) i) }
        ensures search { OnOk result (IsSearching needs.now self.new.marks.items self.new.next.items self.new.path.items self.new.order.items) }
        ensures met { OnOk result (AreOnlyOld self.old.marks.items self.new.marks.items) }
        ensures work { OnOk result (work self.new.marks.items self.new.path.items + 1 ≡ work self.old.marks.items self.old.path.items) }
    {
        if let Some(atom) = self.path.pop() {
            let place = self.order.len();
            self.order.push(atom)?;
            self.marks[atom] = Mark::Done(place);
        }
        Ok(())
    }

    /// The index of the first atom, at or after `from`, that has no place in the order.
    fn skip(&self, wants: &[usize], from: usize) -> usize
        requires graph { (i : ℕ) → i < length wants.now → slice_index wants.now i < length self.now.marks.items }
        requires from { from ≤ length wants.now }
        ensures within { result ≤ length wants.now }
        ensures passed { (i : ℕ) → from ≤ i → i < result → IsPlaced self.now.marks.items (slice_index wants.now i) }
        ensures stop { result < length wants.now → ¬ (IsPlaced self.now.marks.items (slice_index wants.now result)) }
    {
        for place in from..wants.len() {
            match self.marks[wants[place]] {
                Mark::Done(_) => {}
                _ => return place,
            }
        }
        wants.len()
    }

    /// Skips the needs of this atom that have a place. Returns how many of its needs are done.
    fn advance(&mut self, needs: &[Needs], atom: usize) -> usize
        requires search { IsSearching needs.now self.old.marks.items self.old.next.items self.old.path.items self.old.order.items }
        requires within { atom < length needs.now }
        ensures search { IsSearching needs.now self.new.marks.items self.new.next.items self.new.path.items self.new.order.items }
        ensures marks { self.new.marks.items ≡ self.old.marks.items }
        ensures path { self.new.path.items ≡ self.old.path.items }
        ensures passed { (i : ℕ) → i < result → IsPlaced self.old.marks.items (slice_index (needs_at needs.now atom) i) }
        ensures within { result ≤ length (needs_at needs.now atom) }
        ensures stop { result < length (needs_at needs.now atom) → ¬ (IsPlaced self.old.marks.items (slice_index (needs_at needs.now atom) result)) }
    {
        let place = self.skip(needs[atom].as_slice(), self.next[atom]);
        self.next[atom] = place;
        place
    }

    /// Makes one step at the end of the path. Returns true if this step closes a cycle.
    fn step(&mut self, needs: &[Needs]) -> Result<bool, AllocError>
        requires search { IsSearching needs.now self.old.marks.items self.old.next.items self.old.path.items self.old.order.items }
        requires some { 0 < length self.old.path.items }
        ensures cycle { IfOk result (λ found. found ≡ true → ¬ (IsGraphAcyclic needs.now)) }
        ensures search { IfOk result (λ found. found ≡ false → IsSearching needs.now self.new.marks.items self.new.next.items self.new.path.items self.new.order.items) }
        ensures met { IfOk result (λ found. AreOnlyOld self.old.marks.items self.new.marks.items) }
        ensures work { IfOk result (λ found. found ≡ false → work self.new.marks.items self.new.path.items + 1 ≡ work self.old.marks.items self.old.path.items) }
    {
        let atom = self.path[self.path.len() - 1];
        let place = self.advance(needs, atom);
        let wants = needs[atom].as_slice();
        if place == wants.len() {
            self.finish(needs)?;
            return Ok(false);
        }
        let need = wants[place];
        match self.marks[need] {
            Mark::New => {
                self.open(needs, need)?;
                Ok(false)
            }
            Mark::Open(_) => Ok(true),
            Mark::Done(_) => unreachable!(),
        }
    }

    /// Continues until the path is empty or a cycle is found. Returns true if a cycle was found.
    fn explore(&mut self, needs: &[Needs]) -> Result<bool, AllocError>
        requires { IsSearching needs.now self.old.marks.items self.old.next.items self.old.path.items self.old.order.items }
        ensures cycle { IfOk result (λ found. found ≡ true → ¬ (IsGraphAcyclic needs.now)) }
        ensures search { IfOk result (λ found. found ≡ false → IsSearching needs.now self.new.marks.items self.new.next.items self.new.path.items self.new.order.items) }
        ensures over { IfOk result (λ found. found ≡ false → length self.new.path.items ≡ 0) }
        ensures met { IfOk result (λ found. AreOnlyOld self.old.marks.items self.new.marks.items) }
    {
        while !self.path.is_empty() {
            if self.step(needs)? {
                return Ok(true);
            }
        }
        Ok(false)
    }

    /// Orders this atom and all atoms that it needs. Returns true if a cycle was found.
    fn visit(&mut self, needs: &[Needs], start: usize) -> Result<bool, AllocError>
        requires search { IsSearching needs.now self.old.marks.items self.old.next.items self.old.path.items self.old.order.items }
        requires empty { length self.old.path.items ≡ 0 }
        requires within { start < length needs.now }
        ensures cycle { IfOk result (λ found. found ≡ true → ¬ (IsGraphAcyclic needs.now)) }
        ensures search { IfOk result (λ found. found ≡ false → IsSearching needs.now self.new.marks.items self.new.next.items self.new.path.items self.new.order.items) }
        ensures over { IfOk result (λ found. found ≡ false → length self.new.path.items ≡ 0) }
        ensures met { IfOk result (λ found. AreOnlyOld self.old.marks.items self.new.marks.items) }
        ensures here { IfOk result (λ found. mark self.new.marks.items start ≢ New) }
    {
        match self.marks[start] {
            Mark::New => {
                self.open(needs, start)?;
                Ok(self.explore(needs)?)
            }
            _ => Ok(false),
        }
    }
}

/// A ranking: an order that puts each atom after the atoms that it needs, and the place of each atom in this order.
#[derive(Drop)]
pub struct Ranking {
    pub order: Vec<usize>,
    pub places: Vec<usize>,
}

fn places_of(alloc: Global, marks: &[Mark]) -> Result<Vec<usize>, AllocError>
    requires { (n : ℕ) → n < length marks.now → IsPlaced marks.now n }
    ensures { IfOk result (λ v. (length v.items ≡ length marks.now) × ((n : ℕ) → n < length marks.now → mark marks.now n ≡ Done (slice_index v.items n))) }
{
    let mut places = Vec::with_capacity(alloc, marks.len())?;
    for seen in marks {
        match *seen {
            Mark::Done(place) => places.push(place)?,
            Mark::New | Mark::Open(_) => unreachable!(),
        }
    }
    Ok(places)
}

/// Ranks the atoms. Returns `None` if they need one another in a cycle.
pub fn rank(alloc: Global, needs: &[Needs]) -> Result<Option<Ranking>, AllocError>
    requires { IsGraph needs.now }
    ensures found { IfOk result (λ o. IfSome o (λ r. IsRanking needs.now r.order.items r.places.items)) }
    ensures none { IfOk result (λ o. IfNone o (¬ (IsGraphAcyclic needs.now))) }
{
    let mut search = Search {
        marks: vec![in alloc; Mark::New; needs.len()]?,
        next: vec![in alloc; 0; needs.len()]?,
        path: Vec::new(alloc),
        order: Vec::with_capacity(alloc, needs.len())?,
    };
    for start in 0..needs.len() {
        if search.visit(needs, start)? {
            return Ok(None);
        }
    }
    let places = places_of(alloc, &search.marks)?;
    Ok(Some(Ranking {
        order: search.order,
        places,
    }))
}
