//! The waiting matches of a season, and the number of running matches of each player.
ghost use Rattle.std.specs.Prelude.{◌≡◌, ◌≤◌, ◌<◌, ◌+◌, ◌-◌, ◌^◌, ◌↔◌, ℕ, [], true, All, IfNone, IfOk, IfSome, IsTrue, OnErr, OnOk, Some, get_or, length, min, slice_get, slice_set, take};
ghost use Rattle.std.specs.List.{AllZip};
ghost use Rattle.std.specs.VecDeque.{deque_capacity, deque_len};
ghost use Rattle.match_season.specs.Queues.{AllWait, AreNumbersOf, Begins, IsBusy, Lengthens, ListsOnce, SitDown, StandUp, are_free, number_of, turn_of, with_match};

use indexmap::IndexSet;
use match_plans::{MatchPlan, PlayerAddress, SeasonForm};
use std::alloc::{AllocError, AllocFailed, Global};
use std::collections::VecDeque;

/// A match that waits: its index in the schedule, and the numbers of its players, each once.
#[derive(Drop)]
pub struct WaitingMatch {
    pub place: usize,
    players: Vec<usize>,
}

/// The waiting matches in the order of the schedule, and the players of the running matches.
#[derive(Drop)]
pub struct MatchQueue {
    waiting: VecDeque<WaitingMatch>,
    /// The number of running matches of each player.
    sitting: Vec<usize>,
    /// The largest number of running matches of a player.
    concurrent: usize,
}

fn list_once(numbers: &mut Vec<usize>, number: usize) -> Result<(), AllocError>
    ensures { OnOk result (ListsOnce numbers.old.items numbers.new.items number) }
{
    if numbers.contains(&number) {
        return Ok(());
    }
    numbers.push(number)?;
    Ok(())
}

/// The address of a player. Players with the same host and port have the same number.
fn address<'a>(player: &PlayerAddress<'a>) -> (&'a str, u16)
    ensures { result ≡ (player.now.host, player.now.port) }
{
    (player.host, player.port)
}

/// The index of a player's address in `addresses`. Appends the address if `addresses` does not contain it yet.
fn number_of<'a>(
    addresses: &mut IndexSet<(&'a str, u16)>,
    player: &PlayerAddress<'a>,
) -> Result<usize, AllocError>
    ensures number { IfOk result (λ number. number ≡ number_of addresses.new.keys player.now) }
    ensures listed { IfOk result (λ number. number < length addresses.new.keys) }
    ensures kept { OnOk result (Lengthens addresses.old.keys addresses.new.keys) }
{
    let (number, _) = addresses.insert_full(address(player))?;
    Ok(number)
}

fn numbers<'a>(
    alloc: Global,
    addresses: &mut IndexSet<(&'a str, u16)>,
    players: &[PlayerAddress<'a>],
) -> Result<Vec<usize>, AllocError>
    ensures numbers { IfOk result (λ numbers. AreNumbersOf addresses.new.keys players.now numbers.items) }
    ensures kept { OnOk result (Lengthens addresses.old.keys addresses.new.keys) }
{
    let mut numbers = Vec::with_capacity(alloc, players.len())?;
    for player in players {
        let number = number_of(addresses, player)?;
        list_once(&mut numbers, number)?;
    }
    Ok(numbers)
}

fn sits_in(sitting: &[usize], player: usize) -> usize
    ensures { result ≡ get_or sitting.now player 0 }
{
    match sitting.get(player) {
        Some(count) => *count,
        None => 0,
    }
}

/// Whether each of these players has fewer running matches than the limit.
fn are_free(sitting: &[usize], concurrent: usize, players: &[usize]) -> bool
    ensures { result ≡ are_free sitting.now concurrent players.now }
{
    players
        .iter()
        .all(|&player| sits_in(sitting, player) < concurrent)
}

/// Counts one more running match for a player.
fn seat(sitting: &mut [usize], player: usize)
    ensures { sitting.new ≡ slice_set sitting.old player (min (get_or sitting.old player 0 + 1) (2 ^ 64 - 1)) }
{
    if player < sitting.len() {
        sitting[player] = sitting[player].saturating_add(1);
    }
}

/// Counts one fewer running match for a player.
fn unseat(sitting: &mut [usize], player: usize)
    ensures { sitting.new ≡ slice_set sitting.old player (get_or sitting.old player 0 - 1) }
{
    if player < sitting.len() {
        sitting[player] = sitting[player].saturating_sub(1);
    }
}

fn seat_all(sitting: &mut [usize], players: &[usize])
    ensures { SitDown sitting.old sitting.new players.now }
{
    for player in players {
        seat(sitting, *player);
    }
}

fn unseat_all(sitting: &mut [usize], players: &[usize])
    ensures { StandUp sitting.old sitting.new players.now }
{
    for player in players {
        unseat(sitting, *player);
    }
}

fn waiting_matches<'a>(
    alloc: Global,
    addresses: &mut IndexSet<(&'a str, u16)>,
    plans: &[MatchPlan<'a>],
) -> Result<VecDeque<WaitingMatch>, AllocError>
    ensures in_order { IfOk result (λ waiting. (place : ℕ) (d : WaitingMatch) → place < length plans.now → (get_or waiting.items place d).place ≡ place) }
    ensures numbered { IfOk result (λ waiting. AllZip (λ plan waiting_match. AreNumbersOf addresses.new.keys plan.players.items waiting_match.players.items) plans.now waiting.items) }
{
    let mut waiting = VecDeque::with_capacity(alloc, plans.len())?;
    for (place, plan) in plans.iter().enumerate() {
        let players = numbers(alloc, addresses, &plan.players)?;
        waiting.push_back(WaitingMatch { place, players })?;
    }
    Ok(waiting)
}

impl MatchQueue {
    /// A queue of these matches. All of them wait.
    pub fn of(
        alloc: Global,
        plans: &[MatchPlan<'_>],
        form: SeasonForm,
    ) -> Result<MatchQueue, AllocError>
        ensures wait { IfOk result (λ queue. AllWait queue plans.now) }
        ensures concurrent { IfOk result (λ queue. queue.concurrent ≡ form.concurrent) }
    {
        let mut addresses = IndexSet::new(alloc);
        let waiting = waiting_matches(alloc, &mut addresses, plans)?;
        Ok(MatchQueue {
            waiting,
            sitting: vec![in alloc; 0; addresses.len()]?,
            concurrent: form.concurrent,
        })
    }

    fn can_begin(&self, waiting_match: &WaitingMatch) -> bool
        ensures { result ≡ are_free self.now.sitting.items self.now.concurrent waiting_match.now.players.items }
    {
        are_free(&self.sitting, self.concurrent, &waiting_match.players)
    }

    /// The index in `waiting` of the first match that can begin because all its players are free.
    fn first_free(&self) -> Option<usize>
        ensures some { IfSome result (λ at. (first : WaitingMatch) × (slice_get self.now.waiting.items at ≡ Some first)
            × (are_free self.now.sitting.items self.now.concurrent first.players.items ≡ true)
            × All (IsBusy self.now) (take at self.now.waiting.items)) }
        ensures none { IfNone result (All (IsBusy self.now) self.now.waiting.items) }
    {
        self.waiting
            .iter()
            .position(|waiting_match| self.can_begin(waiting_match))
    }

    /// Whether matches wait and none of them can begin.
    pub fn has_to_wait(&self) -> bool
        ensures { IsTrue result ↔ ((0 < deque_len self.now.waiting) × All (IsBusy self.now) self.now.waiting.items) }
    {
        if self.waiting.is_empty() {
            return false;
        }
        self.first_free().is_none()
    }

    /// Whether no match waits.
    pub fn is_empty(&self) -> bool
        ensures { IsTrue result ↔ (deque_len self.now.waiting ≡ 0) }
    {
        self.waiting.is_empty()
    }

    /// Removes the first waiting match whose players are all free, and counts it as running. Returns `None` if there is
    /// no such match.
    pub fn take(&mut self) -> Option<WaitingMatch>
        ensures some { IfSome result (Begins self.old self.new) }
        ensures none { IfNone result (All (IsBusy self.old) self.old.waiting.items × (self.new ≡ self.old)) }
    {
        let at = self.first_free()?;
        let waiting_match = self.waiting.remove(at)?;
        seat_all(&mut self.sitting, &waiting_match.players);
        Some(waiting_match)
    }

    /// Counts a match as no longer running.
    pub fn leave(&mut self, waiting_match: &WaitingMatch)
        ensures stand { StandUp self.old.sitting.items self.new.sitting.items waiting_match.now.players.items }
        ensures same { (self.new.waiting ≡ self.old.waiting) × (self.new.concurrent ≡ self.old.concurrent) }
    {
        unseat_all(&mut self.sitting, &waiting_match.players);
    }

    /// The number of waiting matches that are earlier in the schedule than this index.
    fn place_of(&self, place: usize) -> usize
        ensures turn { result ≡ turn_of self.now.waiting.items place }
        ensures within { result ≤ deque_len self.now.waiting }
    {
        self.waiting
            .iter()
            .position(|waiting_match| place < waiting_match.place)
            .unwrap_or(self.waiting.len())
    }

    /// Lets a match wait again, at its position in the order of the schedule.
    pub fn put_back(&mut self, waiting_match: WaitingMatch) -> Result<(), AllocFailed<WaitingMatch>>
        ensures waits { OnOk result (self.new.waiting.items ≡ with_match self.old.waiting.items waiting_match) }
        ensures refused { OnErr result (self.new.waiting.items ≡ self.old.waiting.items) }
        ensures full { OnErr result (deque_capacity self.old.waiting ≤ deque_len self.old.waiting) }
        ensures same { (self.new.sitting ≡ self.old.sitting) × (self.new.concurrent ≡ self.old.concurrent) }
    {
        let at = self.place_of(waiting_match.place);
        self.waiting.insert(at, waiting_match)
    }

    /// Removes all waiting matches.
    pub fn clear(&mut self)
        ensures none_waits { self.new.waiting.items ≡ [] }
        ensures same { (self.new.sitting ≡ self.old.sitting) × (self.new.concurrent ≡ self.old.concurrent) }
    {
        self.waiting.clear();
    }
}
