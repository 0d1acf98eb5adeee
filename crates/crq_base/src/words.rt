//! The words of the shared table: what one atomic step reads or writes, packed into 64 bits.
//!
//! `pack` asks that each field keeps to its bits, and `unpack` refuses just the words into which no such value packs.
//! The mark in the low bits of a link is after Harris, "A pragmatic implementation of non-blocking linked lists"
//! (2001), and the stamp of a retired row after the limbo lists of Fraser, "Practical lock-freedom" (2004).

ghost use Rattle.std.specs.Prelude.{◌≡◌, ℕ, ◌<◌, ◌↔◌, MatchOption, IsSomeAnd, Some};
ghost use Rattle.crq_base.specs.declared.words.Link.{Link};
ghost use Rattle.crq_base.specs.declared.words.Current.{Current};
ghost use Rattle.crq_base.specs.declared.words.Control.{Control};
ghost use Rattle.crq_base.specs.declared.words.Pin.{Pin};
ghost use Rattle.crq_base.specs.declared.words.Stamp.{Stamp};
ghost use Rattle.crq_base.specs.Words.{mark_number, link_word, current_word, control_word, pin_word, stamp_word};
ghost use Rattle.crq_base.specs.Words.{IsLink, IsCurrent, IsControl, IsPin, IsStamp, IsLinkWord, IsCurrentWord, IsControlWord, IsPinWord, IsStampWord};

/// The word of the last tag, 2^62.
const LAST_STAMP: u64 = (1 << 62) + 1;

/// What a link says of the head or the row that holds it.
#[derive(Clone, Copy, Debug, PartialEq, Eq)]
pub enum Mark {
    /// The head is open, or the row's event is in the set.
    Val,
    /// The row is a copy that nobody has validated.
    Inv,
    /// Frozen: the list from here on moves into the next table.
    Mov,
    /// The row's event is gone, and the row may be cut.
    Del,
}

impl Mark {
    /// The two bits of the mark.
    fn number(self) -> u64
        ensures { result ≡ mark_number self }
    {
        match self {
            Mark::Val => 0,
            Mark::Inv => 1,
            Mark::Mov => 2,
            Mark::Del => 3,
        }
    }

    /// The mark that has these two bits.
    fn from_number(number: u64) -> Mark
        requires { number < 4 }
        ensures { mark_number result ≡ number }
    {
        match number {
            0 => Mark::Val,
            1 => Mark::Inv,
            2 => Mark::Mov,
            _ => Mark::Del,
        }
    }
}

/// Where a list goes on: the word of a bucket's head, or of a row's link. The fields stand in the order of their bits; in
/// two of the other orders the queue took half as long again.
#[derive(Clone, Copy, Debug, PartialEq, Eq)]
pub struct Link {
    /// The mark of the head or row that holds this link.
    pub mark: Mark,
    /// The next row, numbered from 1 and below 2^24. There is none where it is 0.
    pub row: u32,
    /// The table's generation, below 2^30.
    pub generation: u32,
}

impl Link {
    /// The mark in bits 0 and 1, the row from bit 2, the generation from bit 26.
    pub fn pack(self) -> u64
        requires { IsLink self }
        ensures { result ≡ link_word self }
    {
        (u64::from(self.generation) << 26) + (u64::from(self.row) << 2) + self.mark.number()
    }

    /// The link that packs into this word; None from 2^56 up, where there is none.
    pub fn unpack(word: u64) -> Option<Link>
        ensures found { MatchOption result (IsLinkWord word → ⊥) (λ link. IsLink link × (link_word link ≡ word)) }
        ensures packed { (link : Link) → IsLink link → link_word link ≡ word → result ≡ Some link }
    {
        if word >> 56 != 0 {
            return None;
        }
        Some(Link::from_word(word))
    }

    /// The link that packs into this word.
    pub fn from_word(word: u64) -> Link
        requires { IsLinkWord word }
        ensures { IsLink result × (link_word result ≡ word) }
    {
        Link {
            generation: (word >> 26) as u32,
            row: ((word >> 2) % (1 << 24)) as u32,
            mark: Mark::from_number(word % 4),
        }
    }
}

/// How far the takes have come: no settled event lies in an earlier bucket.
#[derive(Clone, Copy, Debug, PartialEq, Eq)]
pub struct Current {
    /// Counts the changes of this word, but for the steps to a next bucket.
    pub epoch: u32,
    /// The first tick of the bucket at which takes begin.
    pub tick: u32,
}

impl Current {
    /// The tick from bit 0, the epoch from bit 32.
    pub fn pack(self) -> u64
        ensures { result ≡ current_word self }
    {
        (u64::from(self.epoch) << 32) + u64::from(self.tick)
    }

    /// The position that packs into this word. Each word is one, so the answer is never None.
    pub fn unpack(word: u64) -> Option<Current>
        ensures found { IsSomeAnd result (λ current. IsCurrent current × (current_word current ≡ word)) }
        ensures packed { (current : Current) → IsCurrent current → current_word current ≡ word → result ≡ Some current }
    {
        Some(Current {
            epoch: (word >> 32) as u32,
            tick: (word % (1 << 32)) as u32,
        })
    }
}

/// Which table is open, and into which one it moves.
#[derive(Clone, Copy, Debug, PartialEq, Eq)]
pub struct Control {
    /// The open table's generation, below 2^30.
    pub generation: u32,
    /// Whether the table's events move into the next generation.
    pub moving: bool,
    /// The open table has 2^log buckets; below 2^4.
    pub log: u32,
    /// A bucket of the open table is 2^shift ticks wide; below 2^5.
    pub shift: u32,
    /// The next table's log, below 2^4; 0 where nothing moves.
    pub new_log: u32,
    /// The next table's shift, below 2^5; 0 where nothing moves.
    pub new_shift: u32,
}

impl Control {
    /// The new shift from bit 0, the new log from bit 5, the shift from bit 9, the log from bit 14, moving at bit 18,
    /// the generation from bit 19.
    pub fn pack(self) -> u64
        requires { IsControl self }
        ensures { result ≡ control_word self }
    {
        let open = (u64::from(self.log) << 14) + (u64::from(self.shift) << 9);
        let next = (u64::from(self.new_log) << 5) + u64::from(self.new_shift);
        (u64::from(self.generation) << 19) + (u64::from(self.moving) << 18) + open + next
    }

    /// The control value that packs into this word. None from 2^49 up, and where bit 18 is off and one of the 9 bits of
    /// the next table is on: no control value packs into these.
    pub fn unpack(word: u64) -> Option<Control>
        ensures found { MatchOption result (IsControlWord word → ⊥) (λ control. IsControl control × (control_word control ≡ word)) }
        ensures packed { (control : Control) → IsControl control → control_word control ≡ word → result ≡ Some control }
    {
        let moving = (word >> 18) % 2 == 1;
        if word >> 49 != 0 || !moving && word % (1 << 9) != 0 {
            return None;
        }
        Some(Control::from_word(word))
    }

    /// The control value that packs into this word.
    pub fn from_word(word: u64) -> Control
        requires { IsControlWord word }
        ensures { IsControl result × (control_word result ≡ word) }
    {
        Control {
            generation: (word >> 19) as u32,
            moving: (word >> 18) % 2 == 1,
            log: ((word >> 14) % 16) as u32,
            shift: ((word >> 9) % 32) as u32,
            new_log: ((word >> 5) % 16) as u32,
            new_shift: (word % 32) as u32,
        }
    }
}

/// From which of current's epochs on a new table is used: set once in each migration.
#[derive(Clone, Copy, Debug, PartialEq, Eq)]
pub struct Pin {
    /// The generation that the table moves into, below 2^30.
    pub generation: u32,
    /// Current's epoch, as it was read after all heads were frozen.
    pub epoch: u32,
}

impl Pin {
    /// The epoch from bit 0, the generation from bit 32.
    pub fn pack(self) -> u64
        requires { IsPin self }
        ensures { result ≡ pin_word self }
    {
        (u64::from(self.generation) << 32) + u64::from(self.epoch)
    }

    /// The pin that packs into this word; None from 2^62 up, where there is none.
    pub fn unpack(word: u64) -> Option<Pin>
        ensures found { MatchOption result (IsPinWord word → ⊥) (λ pin. IsPin pin × (pin_word pin ≡ word)) }
        ensures packed { (pin : Pin) → IsPin pin → pin_word pin ≡ word → result ≡ Some pin }
    {
        if word >> 62 != 0 {
            return None;
        }
        Some(Pin {
            generation: (word >> 32) as u32,
            epoch: (word % (1 << 32)) as u32,
        })
    }
}

/// Whether a row is retired. A caller's announcement is a word of this kind too: `Kept` there says that its guard is
/// off, and `Retired` the epoch that it announced.
#[derive(Clone, Copy, Debug, PartialEq, Eq)]
pub enum Stamp {
    /// The row is free, in hand, listed, or cut and not yet retired.
    Kept,
    /// The row was retired with this epoch as its tag, at most 2^62.
    Retired(u64),
}

impl Stamp {
    /// 0 for `Kept`, and one more than the tag for `Retired`.
    pub fn pack(self) -> u64
        requires { IsStamp self }
        ensures { result ≡ stamp_word self }
    {
        match self {
            Stamp::Kept => 0,
            Stamp::Retired(tag) => 1 + tag,
        }
    }

    /// The stamp that packs into this word; None above 2^62 + 1, where there is none.
    pub fn unpack(word: u64) -> Option<Stamp>
        ensures found { MatchOption result (IsStampWord word → ⊥) (λ stamp. IsStamp stamp × (stamp_word stamp ≡ word)) }
        ensures packed { (stamp : Stamp) → IsStamp stamp → stamp_word stamp ≡ word → result ≡ Some stamp }
    {
        match word {
            0 => Some(Stamp::Kept),
            1..=LAST_STAMP => Some(Stamp::Retired(word - 1)),
            _ => None,
        }
    }
}

/// Two values with one word are the same value.
pub fn word_law()
    ensures links { (a b : Link) → IsLink a → IsLink b → link_word a ≡ link_word b → a ≡ b }
    ensures currents { (a b : Current) → IsCurrent a → IsCurrent b → current_word a ≡ current_word b → a ≡ b }
    ensures controls { (a b : Control) → IsControl a → IsControl b → control_word a ≡ control_word b → a ≡ b }
    ensures pins { (a b : Pin) → IsPin a → IsPin b → pin_word a ≡ pin_word b → a ≡ b }
    ensures stamps { (a b : Stamp) → IsStamp a → IsStamp b → stamp_word a ≡ stamp_word b → a ≡ b }
{}

/// The words of a kind are just the numbers into which a value of that kind packs.
pub fn spelling_law()
    ensures links { (word : ℕ) → IsLinkWord word ↔ ((link : Link) × IsLink link × (link_word link ≡ word)) }
    ensures currents { (word : ℕ) → IsCurrentWord word ↔ ((current : Current) × IsCurrent current × (current_word current ≡ word)) }
    ensures controls { (word : ℕ) → IsControlWord word ↔ ((control : Control) × IsControl control × (control_word control ≡ word)) }
    ensures pins { (word : ℕ) → IsPinWord word ↔ ((pin : Pin) × IsPin pin × (pin_word pin ≡ word)) }
    ensures stamps { (word : ℕ) → IsStampWord word ↔ ((stamp : Stamp) × IsStamp stamp × (stamp_word stamp ≡ word)) }
{}
