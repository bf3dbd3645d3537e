//! The rules between the parts of a description, each as a test.

ghost use Rattle.std.specs.Prelude.{◌≡◌, ◌↔◌, IsTrue, ℕ, ◌<◌, length, All, option_copied};
ghost use Rattle.std.specs.List.{list_any};
ghost use Rattle.kc_regions.specs.Region.{stacks_of, marked_of};
ghost use Rattle.kc_regions.specs.CrossRules.{IsOnItsSide, StackFits, IsStackInBounds, HasGuard, IsGuardBelow, IsInArea, IsNewVector, HasGate, IsNewEntry, IsWordPlaced, WordsMeet};
ghost use Rattle.kc_regions.specs.CrossTests.{on_side, guards, area_holds, words_meet, tss_apart, clear_of_tss};
ghost use Rattle.kc_regions.specs.Lookup.{gate_of, tss_word};

use crate::each::Rule;
use crate::entry::{Gate, Handler, Word};
use crate::region::{Kind, Region};

/// User addresses are below this one, and kernel addresses at `KERNEL_FIRST` or above.
const USER_END: u64 = 1 << 47;

const KERNEL_FIRST: u64 = 1 << 63;

/// The most bytes of a stack, and the most stacks and marked stacks.
const MAX_STACK: u64 = 65_536;

const MAX_STACKS: usize = 16;

const MAX_MARKED: usize = 3;

/// The fewest bytes of a guard below a stack.
const GUARD_SIZE: u64 = 4096;

pub(crate) struct OnItsSide;

impl Rule<Region> for OnItsSide {
    ghost kept = { λ self. IsOnItsSide };

    fn keeps(&self, _earlier: &[Region], region: &Region) -> bool {
        is_on_side(region)
    }
}

/// Whether no byte of the region is on the other side.
fn is_on_side(region: &Region) -> bool
    ensures { result ≡ on_side region.now.kind region.now.span }
{
    let span = &region.span;
    span.to <= span.from
        || match region.kind {
            Kind::User => span.to <= USER_END,
            _ => KERNEL_FIRST <= span.from,
        }
}

pub(crate) struct StackInBounds;

impl Rule<Region> for StackInBounds {
    ghost kept = { λ self. StackFits };

    fn keeps(&self, earlier: &[Region], region: &Region) -> bool {
        !region.kind.is_stack() || is_in_bounds(earlier, region)
    }
}

fn is_in_bounds(earlier: &[Region], stack: &Region) -> bool
    ensures { IsTrue result ↔ IsStackInBounds earlier.now stack.now }
{
    let stacks = stack_count(earlier);
    let marked = marked_count(earlier);
    let span = &stack.span;
    span.from % 16 == 0
        && span.to % 16 == 0
        && span.to - span.from <= MAX_STACK
        && stacks < MAX_STACKS
        && (!stack.marked || marked < MAX_MARKED)
}

fn stack_count(regions: &[Region]) -> usize
    ensures { result ≡ length (stacks_of regions.now) }
{
    regions.iter().filter(|r| r.kind.is_stack()).count()
}

fn marked_count(regions: &[Region]) -> usize
    ensures { result ≡ length (marked_of regions.now) }
{
    regions
        .iter()
        .filter(|r| r.kind.is_stack())
        .filter(|r| r.marked)
        .count()
}

#[derive(Drop)]
pub(crate) struct GuardBelow<'a> {
    pub(crate) regions: &'a [Region],
}

impl<'a> Rule<Region> for GuardBelow<'a> {
    ghost kept = { λ self. HasGuard self.regions.now };

    fn keeps(&self, _earlier: &[Region], region: &Region) -> bool {
        !region.kind.is_stack() || has_guard(self.regions, region)
    }
}

fn has_guard(regions: &[Region], stack: &Region) -> bool
    ensures { result ≡ list_any (guards stack.now) regions.now }
{
    regions.iter().any(|g| guards(stack, g))
}

fn guards(stack: &Region, g: &Region) -> bool
    ensures { result ≡ guards stack.now g.now }
{
    g.kind.is_guard() && g.span.to == stack.span.from && g.span.to - g.span.from >= GUARD_SIZE
}

/// Whether an area holds each of the `n` bytes from `a` on.
pub(crate) fn is_in_area(regions: &[Region], a: u64, n: u64) -> bool
    requires { 0 < n }
    ensures { IsTrue result ↔ IsInArea regions.now a n }
{
    some_area_holds(regions, a, n)
}

fn some_area_holds(regions: &[Region], a: u64, n: u64) -> bool
    ensures { result ≡ list_any (area_holds a n) regions.now }
{
    regions.iter().any(|r| area_holds(r, a, n))
}

fn area_holds(region: &Region, a: u64, n: u64) -> bool
    ensures { result ≡ area_holds a n region.now }
{
    let span = &region.span;
    region.kind.is_area() && span.from <= a && a < span.to && n <= span.to - a
}

pub(crate) struct NewVector;

impl Rule<Gate> for NewVector {
    ghost kept = { λ self. IsNewVector };

    fn keeps(&self, earlier: &[Gate], gate: &Gate) -> bool {
        earlier.iter().all(|e| e.vector != gate.vector)
    }
}

#[derive(Drop)]
pub(crate) struct NeededGate<'a> {
    pub(crate) gates: &'a [Gate],
}

impl<'a> Rule<u8> for NeededGate<'a> {
    ghost kept = { λ self. HasGate self.gates.now };

    fn keeps(&self, _earlier: &[u8], vector: &u8) -> bool {
        find_gate(self.gates, *vector).is_some()
    }
}

pub(crate) fn find_gate(gates: &[Gate], vector: u8) -> Option<Gate>
    ensures { result ≡ gate_of gates.now vector }
{
    match gate_in(gates, vector) {
        Some(gate) => Some(*gate),
        None => None,
    }
}

fn gate_in(gates: &[Gate], vector: u8) -> Option<&Gate>
    ensures { option_copied result ≡ gate_of gates.now vector }
{
    gates.iter().find(|g| g.vector == vector)
}

pub(crate) struct NewEntry;

impl Rule<Handler> for NewEntry {
    ghost kept = { λ self. IsNewEntry };

    fn keeps(&self, earlier: &[Handler], handler: &Handler) -> bool {
        earlier.iter().all(|e| e.entry != handler.entry)
    }
}

#[derive(Drop)]
pub(crate) struct WordPlaced<'a> {
    pub(crate) tss: u64,
    pub(crate) regions: &'a [Region],
}

impl<'a> Rule<Word> for WordPlaced<'a> {
    ghost kept = { λ self. IsWordPlaced self.tss self.regions.now };

    fn keeps(&self, earlier: &[Word], word: &Word) -> bool {
        is_in_area(self.regions, word.at, 8) && is_apart(earlier, self.tss, word.at)
    }
}

/// Whether no byte of the word at `at` lies in one of these or in a word of the TSS.
fn is_apart(words: &[Word], tss: u64, at: u64) -> bool
    ensures { IsTrue result ↔ (All (λ e. ¬ WordsMeet e.at at) words.now
        × ((n : ℕ) → n < 8 → ¬ WordsMeet (tss_word tss n) at)) }
{
    meets_none(words, at) && is_apart_from_tss(tss, at)
}

/// Whether no byte of the word at `at` lies in one of these.
fn meets_none(words: &[Word], at: u64) -> bool
    ensures { IsTrue result ↔ All (λ e. ¬ WordsMeet e.at at) words.now }
{
    !meets_one(words, at)
}

fn meets_one(words: &[Word], at: u64) -> bool
    ensures { result ≡ list_any (λ w. words_meet w.at at) words.now }
{
    words.iter().any(|w| words_meet(w.at, at))
}

fn words_meet(v: u64, w: u64) -> bool
    ensures { result ≡ words_meet v w }
{
    v.abs_diff(w) < 8
}

/// Whether no byte of the word lies in RSP0 or in one of IST1 to IST7.
fn is_apart_from_tss(tss: u64, word: u64) -> bool
    ensures { IsTrue result ↔ ((n : ℕ) → n < 8 → ¬ WordsMeet (tss_word tss n) word) }
{
    tss_apart(tss, word)
}

fn tss_apart(tss: u64, word: u64) -> bool
    ensures { result ≡ tss_apart tss word }
{
    if tss <= word {
        clear_of_tss(word - tss)
    } else {
        4 <= tss - word
    }
}

/// Whether a word at this place of the TSS meets neither RSP0, at the bytes 4 to 11, nor IST1 to
/// IST7, which follow each other at the bytes 36 to 91.
fn clear_of_tss(place: u64) -> bool
    ensures { result ≡ clear_of_tss place }
{
    12 <= place && (place <= 28 || 92 <= place)
}
