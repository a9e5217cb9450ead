// A record that is put together from pieces of a trace.
ghost use Rattle.std.specs.Prelude.{◌≡◌};
ghost use Rattle.records.specs.Partial.{rule_of, length_of, kind_of, cannot, halted, begun, is_stopped, ended_of, gathered};

// How records are read: for each kind, from 0 on, the bytes of its record, and the bytes that a trace may have.
#[derive(Clone, Copy)]
pub struct Rule<'a> {
    pub table: &'a [u8],
    pub limit: u64,
}

// A record that is being put together: the byte place where it starts, how many of its bytes are held, and they. Stopped: no record can be
// there, and nothing that comes is looked at (a flag, since a stopped record keeps its place and bytes: `halted`). The bytes are held in place and not in a `Vec`: a record is copied, and no call can fail for
// want of memory.
#[derive(Clone, Copy)]
pub struct Partial {
    pub place: u64,
    pub held: usize,
    pub bytes: [u8; 32],
    pub stopped: bool,
}

// What a piece brought: the record, how many of the piece's bytes were used, and whether they made it whole. The flag stays: the record is there
// in both cases, so an enum of two would hold the same fields twice.
#[derive(Clone, Copy)]
pub struct Gathered {
    pub partial: Partial,
    pub used: usize,
    pub whole: bool,
}

// Nothing of a record yet, at a place.
pub fn begin(place: u64) -> Partial
    ensures answer { result ≡ begun place }
{
    Partial {
        place,
        held: 0,
        bytes: [0; 32],
        stopped: false,
    }
}

// The bytes of a record of this kind, the kind's own among them; 0 for an unknown kind.
#[tactic(auto, unfolding(crate::specs::Partial::length_of))]
pub fn length_of(table: &[u8], kind: u8) -> usize
    ensures answer { result ≡ length_of table.now kind }
{
    let n = usize::from(table.get(usize::from(kind)).copied().unwrap_or(0));
    if n <= 32 { n } else { 0 }
}

impl Partial {
    // The kind is the first byte: b itself, if nothing is held yet.
    #[tactic(auto, unfolding(crate::specs::Partial::kind_of))]
    fn kind(self, b: u8) -> u8
        ensures answer { result ≡ kind_of self b }
    {
        if self.held == 0 { b } else { self.bytes[0] }
    }

    // No further byte of a record of this kind can come here: it is stopped, unknown or whole, or would end past the limit.
    #[tactic(auto, unfolding(crate::specs::Partial::cannot))]
    fn cannot(self, rule: Rule, kind: u8) -> bool
        ensures answer { result ≡ cannot (rule_of rule.entry.table.now rule.entry.limit) self kind }
    {
        let n = length_of(rule.table, kind);
        let end = self.place.checked_add(n as u64);
        self.stopped || n <= self.held || end.is_none_or(|end| rule.limit < end)
    }

    fn halt(self) -> Partial
        ensures answer { result ≡ halted self }
    {
        Partial {
            stopped: true,
            ..self
        }
    }

    // Stopped, or handed in as no reading leaves it.
    #[tactic(auto, unfolding(crate::specs::Partial::is_stopped))]
    pub fn is_stopped(self, rule: Rule) -> bool
        ensures answer { result ≡ is_stopped (rule_of rule.entry.table.now rule.entry.limit) self }
    {
        if self.held == 0 {
            self.stopped || rule.limit < self.place
        } else {
            self.cannot(rule, self.bytes[0])
        }
    }

    // The trace declared ended: what is held stops at its start.
    #[tactic(auto, unfolding(crate::specs::Partial::ended_of))]
    pub fn ended(self, rule: Rule) -> Partial
        ensures answer { result ≡ ended_of (rule_of rule.entry.table.now rule.entry.limit) self }
    {
        if self.is_stopped(rule) || 0 < self.held {
            self.halt()
        } else {
            self
        }
    }
}

// The bytes of a piece up to the end of the first record that they make whole; all of them where none is, or where the reading is stopped.
pub fn gather(rule: Rule, p: Partial, piece: &[u8]) -> Gathered
    ensures answer { result ≡ gathered (rule_of rule.entry.table.now rule.entry.limit) 0 p piece.now }
{
    let Some(first) = piece.first() else {
        return Gathered {
            partial: p,
            used: 0,
            whole: false,
        };
    };
    let kind = p.kind(*first);
    if p.cannot(rule, kind) {
        return Gathered {
            partial: p.halt(),
            used: piece.len(),
            whole: false,
        };
    }
    let n = length_of(rule.table, kind);
    let used = piece.len().min(n - p.held);
    let held = p.held + used;
    let mut bytes = p.bytes;
    bytes[p.held..held].copy_from_slice(&piece[..used]);
    // Two returns, and no flag that is a test: what a cut leaves and what is whole are told apart.
    let partial = Partial { held, bytes, ..p };
    if held < n {
        return Gathered {
            partial,
            used,
            whole: false,
        };
    }
    Gathered {
        partial,
        used,
        whole: true,
    }
}
