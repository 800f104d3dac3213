//! A fact: a body at a dot, and its bytes.

use crate::body::Body;
use std::marker::Model;
use tk_handle::Dot;

/// A fact: a body at a dot. Contracts see the pair of both.
#[derive(Drop)]
pub struct Fact {
    /// The name of the fact. A set has one fact at a dot.
    pub dot: Dot,
    /// What happened.
    pub body: Body,
}

impl Model for Fact {
    ghost use Rattle.tk_handle.specs.declared.dot.Dot.{Dot};
    ghost use Rattle.tk_fact.specs.declared.body.Body.{Body};

    ghost Value = { Dot × Body };

    ghost view = { λ f. (f.dot, f.body) };

    ghost inverse = { λ p. record { dot = p.0; body = p.1 } };
}

ghost use Rattle.std.specs.Prelude.{◌≡◌, ◌≢◌, ◌≤◌, ◌++◌, ◌↔◌, length, false, None, Some, IfOk};
ghost use Rattle.std.specs.Prelude.{IfErr, IsErrOf, IsTrue, OnErr, OnOk};
ghost use Rattle.tk_format.specs.Reading.{GetsAll};
ghost use Rattle.tk_fact.specs.FactBytes.{passes};

use crate::check::{FactError, check_body};
use std::alloc::{AllocError, Global};
use tk_format::{FromBytes, ReadError, Reader, Spelled, Writer, read_all};

impl Fact {
    ghost use Rattle.tk_handle.specs.declared.dot.Dot.{Dot as AnyDot};
    ghost use Rattle.tk_fact.specs.Check.{refusal_of};
    ghost use Rattle.tk_fact.specs.FactBytes.{fact, fact_bytes, framed, max_bytes};
    ghost use Rattle.tk_fact.specs.declared.body.Body.{Body as AnyBody};

    /// The greatest length of a fact in bytes. This limit is our own.
    pub const MAX_BYTES: usize = 8_192;

    /// Returns the first rule that the fact breaks, `Limit` before `Range`. Takes no memory.
    pub fn check(&self) -> Result<(), FactError>
        ensures ok { OnOk result (refusal_of self.now.1 ≡ None) }
        ensures err { IfErr result (λ e. refusal_of self.now.1 ≡ Some e) }
    {
        check_body(&self.body)
    }

    /// Returns a copy of this fact. Fails if memory runs out.
    pub fn copy(&self, alloc: Global) -> Result<Fact, AllocError>
        ensures { IfOk result (λ fact. fact ≡ self.now) }
    {
        let body = self.body.copy(alloc)?;
        Ok(Fact {
            dot: self.dot,
            body,
        })
    }

    /// Returns whether both have the same dot and equal bodies.
    pub fn same(&self, other: &Fact) -> bool
        ensures { IsTrue result ↔ (self.now ≡ other.now) }
    {
        self.dot == other.dot && self.body.same(&other.body)
    }

    /// Gives a caller's proof the fact that a fact that passes its check ([`Fact::check`]) has a
    /// spelling, also behind its length. Does nothing at run time.
    #[tactic(auto, using(crate::specs::LengthLaws::framed_fits))]
    pub fn known(&self)
        requires { refusal_of self.now.1 ≡ None }
        ensures { framed.Fits self.now }
    {
        self.fits();
    }

    // Gives a proof the fact that a fact that passes its check has a spelling.
    fn fits(&self)
        requires { refusal_of self.now.1 ≡ None }
        ensures { fact.Fits self.now }
    {
        self.dot.known();
        self.body.known();
    }

    /// Returns the fact that all of the bytes together spell. Returns `Malformed` if they spell no
    /// fact that passes its check, and `Memory` if memory runs out.
    pub fn read(alloc: Global, bytes: &[u8]) -> Result<Fact, ReadError>
        ensures found { IfOk result (λ f. fact.Fits f × (bytes.now ≡ fact_bytes f)) }
        ensures malformed { IsErrOf result ReadError.Malformed → (f : AnyDot × AnyBody)
            → fact.Fits f → bytes.now ≢ fact_bytes f }

        // This clause states the result by what the format reads.
        ensures exact { GetsAll (λ f. f) fact result bytes.now }
    {
        read_all(alloc, bytes)
    }

    /// Returns the only spelling of the fact, which passes its check ([`Fact::check`]): at most
    /// 8,192 bytes. Fails if memory runs out.
    pub fn write(&self, alloc: Global) -> Result<Vec<u8>, AllocError>
        requires { refusal_of self.now.1 ≡ None }
        ensures spelled { IfOk result (λ bytes. bytes.items ≡ fact_bytes self.now) }
        ensures short { IfOk result (λ bytes. length bytes.items ≤ max_bytes) }
    {
        self.known();
        let mut writer = Writer::new(alloc);
        self.dot.write(&mut writer)?;
        self.body.write(&mut writer)?;
        Ok(writer.into_bytes())
    }

    /// Writes the length of the fact's spelling in two bytes, high byte first, and then the
    /// spelling. The fact passes its check ([`Fact::check`]). Fails if memory runs out, and writes
    /// nothing then.
    pub fn write_framed(&self, alloc: Global, writer: &mut Writer) -> Result<(), AllocError>
        requires { refusal_of self.now.1 ≡ None }
        ensures ok { OnOk result (writer.new ≡ writer.old ++ framed.spell self.now) }
        ensures err { OnErr result (writer.new ≡ writer.old) }
    {
        let bytes = self.write(alloc)?;
        writer.put_text(&bytes)
    }
}

impl Spelled for Fact {
    ghost use Rattle.tk_fact.specs.FactBytes.{fact};
    ghost use Rattle.tk_fact.specs.FactLaws.{fact_exact};

    ghost format = { fact };

    fn read_from(alloc: Global, reader: &mut Reader<'_>) -> Result<Fact, ReadError> {
        let Some(dot) = Dot::read(reader) else {
            return Err(ReadError::Malformed);
        };
        match Body::read(alloc, reader) {
            Ok(body) => checked(Fact { dot, body }),
            Err(error) => Err(error),
        }
    }

    ghost exact = { fact_exact };
}

// Returns the fact, if it passes its check.
fn checked(read: Fact) -> Result<Fact, ReadError>
    ensures ok { IfOk result (λ f. (f ≡ read) × IsTrue (passes f)) }
    ensures err { IfErr result (λ e. (e ≡ ReadError.Malformed) × (passes read ≡ false)) }
{
    match read.check() {
        Ok(()) => Ok(read),
        Err(_) => {
            drop(read);
            Err(ReadError::Malformed)
        }
    }
}

// A fact behind its length, as bundles contain it.
impl FromBytes for Fact {
    ghost use Rattle.tk_fact.specs.FactBytes.{framed};

    ghost value_at = { framed.read };

    fn read_from(alloc: Global, reader: &mut Reader<'_>) -> Result<Fact, ReadError> {
        let Some(bytes) = reader.take_text() else {
            return Err(ReadError::Malformed);
        };
        if bytes.len() > Fact::MAX_BYTES {
            return Err(ReadError::Malformed);
        }
        Fact::read(alloc, bytes)
    }
}
