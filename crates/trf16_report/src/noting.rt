// Noting what the carried lines of a report say, line by line, and asking what is noted.
ghost use Rattle.std.specs.Prelude.{◌≡◌, ℕ, ◌&&◌, ◌||◌, List, drop, false, codes, IfOk, None};
ghost use Rattle.trf16_report.specs.Lines.{columns, text, joined};
ghost use Rattle.trf16_report.specs.Fields.{words};
ghost use Rattle.trf16_report.specs.Extensions.{is_kind, is_word, is_named, names_absent};
ghost use Rattle.trf16_report.specs.Absence.{is_of};
ghost use Rattle.trf16_report.specs.Notes.{is_marked, first_noted, is_kind_of, noted_first, begins_with_x, earlier};

use crate::columns::split_kind;
use crate::extensions::{has_rank, is_word};
use crate::kind::LineKind;
use crate::notes::Notes;
use crate::start_ranks::StartRanks;
use std::alloc::{AllocError, Global};

impl Notes {
    /// Nothing is noted.
    pub fn new(alloc: Global) -> Result<Notes, AllocError>
        ensures absent { IfOk result (λ notes. (start : ℕ) → is_marked notes start ≡ false) }
        ensures firsts { IfOk result (λ notes. (kind : LineKind) → first_noted notes kind ≡ None) }
        ensures together { IfOk result (λ notes. notes.together ≡ false) }
    {
        Ok(Notes {
            absent: StartRanks::new(alloc)?,
            xxa: None,
            xxs: None,
            rank: None,
            together: false,
        })
    }

    pub(crate) fn copy(&self, alloc: Global) -> Result<Notes, AllocError>
        ensures absent { IfOk result (λ notes. (start : ℕ) → is_marked notes start ≡ is_marked self.now start) }
        ensures firsts { IfOk result (λ notes. (kind : LineKind) → first_noted notes kind ≡ first_noted self.now kind) }
        ensures together { IfOk result (λ notes. notes.together ≡ self.now.together) }
    {
        Ok(Notes {
            absent: self.absent.copy(alloc)?,
            xxa: self.xxa,
            xxs: self.xxs,
            rank: self.rank,
            together: self.together,
        })
    }

    /// Forgets who is absent.
    pub(crate) fn forget_absences(&mut self)
        ensures absent { (start : ℕ) → is_marked self.new start ≡ false }
        ensures firsts { (kind : LineKind) → first_noted self.new kind ≡ first_noted self.old kind }
        ensures together { self.new.together ≡ self.old.together }
    {
        self.absent.clear();
    }

    /// The first line of a kind that is noted.
    pub(crate) fn first(&self, kind: LineKind) -> Option<usize>
        ensures { result ≡ first_noted self.now kind }
    {
        match kind {
            LineKind::Xxa => self.xxa,
            LineKind::Xxs => self.xxs,
            LineKind::Rank => self.rank,
        }
    }

    // Marks those whom a line names, if it is of the kind `XXZ`.
    fn note_absent(&mut self, kind: &[u8], rest: &[u8])
        ensures absent { (i : ℕ) → is_marked self.new i
            ≡ (is_marked self.old i || (is_word kind.now (codes "XXZ") && is_named (words rest.now) i)) }
        ensures firsts { (kind : LineKind) → first_noted self.new kind ≡ first_noted self.old kind }
        ensures together { self.new.together ≡ self.old.together }
    {
        if is_word(kind, b"XXZ") {
            self.absent.mark_words(rest);
        }
    }

    // Notes that line n is of a kind, unless an earlier line is.
    fn note_first(&mut self, found: Option<LineKind>, n: usize)
        ensures absent { (i : ℕ) → is_marked self.new i ≡ is_marked self.old i }
        ensures firsts { (kind : LineKind)
            → first_noted self.new kind ≡ noted_first (first_noted self.old kind) (is_kind_of found kind) n }
        ensures together { self.new.together ≡ self.old.together }
    {
        match found {
            Some(LineKind::Xxa) => self.xxa = self.xxa.or(Some(n)),
            Some(LineKind::Xxs) => self.xxs = self.xxs.or(Some(n)),
            Some(LineKind::Rank) => self.rank = self.rank.or(Some(n)),
            None => {}
        }
    }

    // Notes what line n says, if it is an extension.
    fn note_extension(&mut self, n: usize, line: &[u8], utf8: bool)
        ensures absent { (i : ℕ) → is_marked self.new i
            ≡ (is_marked self.old i || names_absent i (columns utf8 line.now)) }
        ensures firsts { (kind : LineKind) → first_noted self.new kind
            ≡ noted_first (first_noted self.old kind) (is_of (columns utf8 line.now) kind) n }
        ensures together { self.new.together ≡ (self.old.together || is_kind (codes "XXP") (columns utf8 line.now)) }
    {
        let (kind, rest) = split_kind(line, utf8);
        self.note_absent(kind, rest);
        self.note_first(kind_of(kind, rest), n);
        self.together = self.together || is_word(kind, b"XXP");
    }

    /// Notes what line n says. Most lines are no extensions, and their first byte tells it.
    pub fn note(&mut self, n: usize, line: &[u8], utf8: bool)
        ensures absent { (i : ℕ) → is_marked self.new i
            ≡ (is_marked self.old i || names_absent i (columns utf8 line.now)) }
        ensures firsts { (kind : LineKind) → first_noted self.new kind
            ≡ noted_first (first_noted self.old kind) (is_of (columns utf8 line.now) kind) n }
        ensures together { self.new.together ≡ (self.old.together || is_kind (codes "XXP") (columns utf8 line.now)) }
    {
        if begins_with_x(line) {
            self.note_extension(n, line, utf8);
        }
    }
}

// All extensions begin so.
fn begins_with_x(line: &[u8]) -> bool
    ensures { result ≡ begins_with_x line.now }
{
    match line.first() {
        Some(b'X' | b'x') => true,
        _ => false,
    }
}

// Which kind that is not supported a line is of, by its first columns and what stands behind them.
fn kind_of(kind: &[u8], rest: &[u8]) -> Option<LineKind>
    ensures { (k : LineKind) → (line : List (List ℕ)) → text line 1 3 ≡ kind.now → joined (drop 3 line) ≡ rest.now
        → is_kind_of result k ≡ is_of line k }
{
    if is_word(kind, b"XXA") {
        return Some(LineKind::Xxa);
    }
    if is_word(kind, b"XXS") {
        return Some(LineKind::Xxs);
    }
    if is_word(kind, b"XXC") && has_rank(rest) {
        return Some(LineKind::Rank);
    }
    None
}

/// The smaller of two numbers, where there are two.
pub(crate) fn earlier(a: Option<usize>, b: Option<usize>) -> Option<usize>
    ensures { result ≡ earlier a b }
{
    match (a, b) {
        (Some(a), Some(b)) => Some(if b < a { b } else { a }),
        (None, found) | (found, None) => found,
    }
}
