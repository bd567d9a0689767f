//! The greatest welfare known, by which pieces are pruned: one worker's own, or one that workers share.

ghost use Rattle.std.specs.Prelude.{◌≡◌, ◌≤◌, ℕ, max};

/// The greatest welfare known to a search, by which its pieces are pruned: a node whose bound is less than the value
/// read is passed over.
///
/// An incumbent keeps two numbers, in cents per MWh times tenths of a MW: the greatest value that
/// was read of it and the greatest welfare that was offered to it, each 0 if there was none.
/// A value read may be greater than each that was offered to it: workers that share a welfare read each other's offers.
pub(crate) trait Incumbent {
    /// The greatest value read so far.
    ghost greatest_read: { Self → ℕ };

    /// The greatest welfare offered so far.
    ghost greatest_offer: { Self → ℕ };

    /// The rest of the incumbent, which neither a read nor an offer changes.
    ghost Kept: { Type 0 } = { Unit {0} };

    ghost kept: { Self → Self.Kept };

    /// A welfare to prune by, never less than this incumbent's earlier answers, in cents per MWh
    /// times tenths of a MW. A walk compares a node's bound with it. A walk by prices asks for it once as it begins and
    /// at each node. A walk by relaxed welfares, for a limit on nodes that may stop a piece, asks only at nodes that
    /// leave a block undecided.
    fn read(&mut self) -> u64
        ensures rises { greatest_read self.old ≤ result }
        ensures greatest_read { greatest_read self.new ≡ result }
        ensures greatest_offer { greatest_offer self.new ≡ greatest_offer self.old }
        ensures kept { kept self.new ≡ kept self.old };

    /// Takes the welfare of an eligible selection that was found, in cents per MWh times tenths of
    /// a MW. A walk offers each that ranks above those that it found before and
    /// has at least the welfare that was read.
    fn offer(&mut self, welfare: u64)
        ensures greatest_read { greatest_read self.new ≡ greatest_read self.old }
        ensures greatest_offer { greatest_offer self.new ≡ max (greatest_offer self.old) welfare }
        ensures kept { kept self.new ≡ kept self.old };
}

/// The incumbent of one worker alone: it reads the greatest welfare offered to it, or 0 if none was.
#[derive(Clone, Copy, PartialEq, Eq, Debug)]
pub(crate) struct OwnIncumbent {
    /// The greatest value read, in cents per MWh times tenths of a MW; 0 if none was.
    pub(crate) greatest_read: u64,
    /// The greatest welfare offered, in cents per MWh times tenths of a MW; 0 if none was.
    pub(crate) greatest_offer: u64,
    ghost known: { greatest_read ≤ greatest_offer },
}

impl OwnIncumbent {
    /// An incumbent of which nothing was read and to which nothing was offered.
    pub(crate) fn new() -> OwnIncumbent
        ensures greatest_read { result.greatest_read ≡ 0 }
        ensures greatest_offer { result.greatest_offer ≡ 0 }
    {
        OwnIncumbent {
            greatest_read: 0,
            greatest_offer: 0,
        }
    }
}

impl Incumbent for OwnIncumbent {
    ghost greatest_read = { λ p. p.greatest_read };

    ghost greatest_offer = { λ p. p.greatest_offer };

    ghost Kept = { Unit {0} };

    ghost kept = { λ _. tt };

    fn read(&mut self) -> u64
        ensures value { result ≡ self.old.greatest_offer }
        ensures rises { self.old.greatest_read ≤ result }
        ensures greatest_read { self.new.greatest_read ≡ result }
        ensures greatest_offer { self.new.greatest_offer ≡ self.old.greatest_offer }
    {
        self.greatest_read = self.greatest_offer;
        self.greatest_read
    }

    fn offer(&mut self, welfare: u64)
        ensures greatest_read { self.new.greatest_read ≡ self.old.greatest_read }
        ensures greatest_offer { self.new.greatest_offer ≡ max self.old.greatest_offer welfare }
    {
        self.greatest_offer = self.greatest_offer.max(welfare);
    }
}
