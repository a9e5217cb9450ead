// A domain's header as a value, and the lookup of a domain in the bytes of an instance: 12, 15, 16.
ghost use Rattle.std.specs.Prelude.{◌≡◌, cond};
ghost use Rattle.words.specs.Answers.{refused, gives};
ghost use Rattle.rapl_domains.specs.Domains.{header_of, header_in, values, missing, unused, wrong, domain_of};
ghost use Rattle.rapl_domains.specs.Told.{told};

use fields::bits::field;
use words::answers::Refusal;
use words::bytes::u64_at;

// Register 0 of a domain; a reserved field is named by its lowest bit.
#[derive(Clone, Copy)]
pub struct Header {
    pub version: u64,
    // the type; 2 is a package
    pub kind: u64,
    // SIZE, in blocks of 128 bytes
    pub size: u64,
    pub parent: u64,
    // FLAGS: bit i stands for register i
    pub flags: u64,
    pub reserved48: u64,
}

// The header that a register's content says.
impl From<u64> for Header {
    ghost from_gives = { λ register h. h ≡ header_of register };

    #[tactic(auto, unfolding(crate::specs::Domains::header_of))]
    fn from(register: u64) -> Header {
        Header {
            version: field(register, 0, 8),
            kind: field(register, 8, 8),
            size: field(register, 16, 8),
            parent: field(register, 24, 8),
            flags: field(register, 32, 16),
            reserved48: field(register, 48, 16),
        }
    }
}

// 12 where block n does not lie wholly inside the instance.
#[tactic(auto, unfolding(crate::specs::Domains::missing, crate::specs::Domains::header_in))]
fn block(s: &[u8], n: u64) -> Result<Header, Refusal>
    ensures answer { told result ≡ cond (missing s.now n) (refused 12) (gives (values (header_in s.now n))) }
{
    if 255 < n {
        return Err(Refusal(12));
    }
    let at = n as usize * 128;
    if s.len() < at + 128 {
        return Err(Refusal(12));
    }
    Ok(Header::from(u64_at(s, at)))
}

// 15 where the type is 0.
#[tactic(auto, unfolding(crate::specs::Domains::unused))]
fn used(h: Header) -> Result<Header, Refusal>
    ensures answer { told result ≡ cond (unused h) (refused 15) (gives (values h)) }
{
    if h.kind == 0 {
        return Err(Refusal(15));
    }
    Ok(h)
}

// 16 where version or SIZE is not 1.
#[tactic(auto, unfolding(crate::specs::Domains::wrong))]
fn sound(h: Header) -> Result<Header, Refusal>
    ensures answer { told result ≡ cond (wrong h) (refused 16) (gives (values h)) }
{
    if h.version != 1 || h.size != 1 {
        return Err(Refusal(16));
    }
    Ok(h)
}

// Domain n of an instance. Each stage's answer is taken apart by `let .. else` and its refusal returned at once, and not by `?`: a form that
// document 01 prescribes for this lookup.
#[tactic(auto, using(crate::proofs::DomainLaws::domain_ways))]
pub fn domain_in(s: &[u8], n: u64) -> Result<Header, Refusal>
    ensures answer { told result ≡ domain_of s.now n }
{
    let inside = block(s, n);
    let Ok(h) = inside else {
        return inside;
    };
    let typed = used(h);
    let Ok(t) = typed else {
        return typed;
    };
    let kept = sound(t);
    let Ok(d) = kept else {
        return kept;
    };
    Ok(d)
}
