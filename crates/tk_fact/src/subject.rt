//! The name of a resource owner, as consents and codes have it.

use std::marker::Model;

/// The name of a resource owner (RFC 6749, 1.1): 1 to 128 visible ASCII bytes. Contracts see its
/// bytes.
#[derive(Drop)]
pub struct Subject {
    text: String,
}

impl Model for Subject {
    ghost use Rattle.std.specs.Prelude.{ℕ, List, IsTrue, string_bytes};

    ghost Value = { List ℕ };

    ghost use Rattle.tk_fact.specs.Subject.{is_subject};

    ghost view = { λ s. string_bytes s.text };

    ghost invariant = { λ s. IsTrue (is_subject (string_bytes s.text)) };
}

/// The reason why bytes are not read as a subject.
#[derive(Clone, Copy)]
pub enum SubjectError {
    /// The bytes are not 1 to 128 visible ASCII bytes.
    Malformed,
    /// Memory ran out.
    Memory,
}

impl From<AllocError> for SubjectError {
    ghost use Rattle.std.specs.Prelude.{◌≡◌};
    ghost use Rattle.tk_fact.specs.declared.subject.SubjectError.TheVariants.{Memory};

    ghost from_gives = { λ _ e. e ≡ Memory };

    fn from(_: AllocError) -> SubjectError {
        SubjectError::Memory
    }
}

ghost use Rattle.std.specs.Prelude.{◌≡◌, ◌++◌, ◌↔◌, false, IfOk, IsErrOf, IsTrue, OnOk};
ghost use Rattle.std.specs.List.{list_all};
ghost use Rattle.tk_format.specs.Reading.{Gets};
ghost use Rattle.tk_fact.specs.Fields.{subject_field};
ghost use Rattle.tk_fact.specs.Subject.{is_visible, is_subject};

use std::alloc::{AllocError, Global};
use tk_format::{ReadError, Reader, Writer};

/// The greatest length of a subject in bytes. This limit is our own.
const MAX_BYTES: usize = 128;

impl Subject {
    /// Reads the name of a subject. Returns `Malformed` if the bytes are no such name, and `Memory`
    /// if memory runs out.
    pub fn read(alloc: Global, text: &[u8]) -> Result<Subject, SubjectError>
        ensures ok { IfOk result (λ subject. (subject ≡ text.now) × IsTrue (is_subject text.now)) }
        ensures malformed { IsErrOf result SubjectError.Malformed → is_subject text.now ≡ false }
    {
        if !is_subject(text) {
            return Err(SubjectError::Malformed);
        }
        let Ok(text) = str::from_utf8(text) else {
            unreachable!("visible ASCII");
        };
        let text = String::from_str(alloc, text)?;
        Ok(Subject { text })
    }

    /// Returns the name as a text.
    pub fn as_str(&self) -> &str
        ensures value { result.now ≡ self.now }
        ensures known { IsTrue (is_subject self.now) }
    {
        self.text.as_str()
    }

    /// Returns the bytes of the name.
    pub fn as_bytes(&self) -> &[u8]
        ensures value { result.now ≡ self.now }
        ensures known { IsTrue (is_subject self.now) }
    {
        self.text.as_bytes()
    }

    // Returns a copy of this subject. Fails if memory runs out.
    pub(crate) fn copy(&self, alloc: Global) -> Result<Subject, AllocError>
        ensures { IfOk result (λ subject. subject ≡ self.now) }
    {
        let text = String::from_str(alloc, self.as_str())?;
        Ok(Subject { text })
    }

    // Returns whether both are the same name.
    pub(crate) fn same(&self, other: &Subject) -> bool
        ensures { IsTrue result ↔ (self.now ≡ other.now) }
    {
        self.as_str() == other.as_str()
    }

    // Gives a caller's proof the fact that the subject has a spelling.
    #[tactic(auto, using(crate::specs::FieldLaws::subject_fits))]
    pub(crate) fn known(&self)
        ensures { subject_field.Fits self.now }
    {
        let _text = self.as_str();
    }

    pub(crate) fn read_from(alloc: Global, reader: &mut Reader<'_>) -> Result<Subject, ReadError>
        ensures { Gets (λ subject. subject) subject_field result reader.old reader.new }
    {
        let Some(bytes) = reader.take_text() else {
            return Err(ReadError::Malformed);
        };
        match Subject::read(alloc, bytes) {
            Ok(subject) => Ok(subject),
            Err(SubjectError::Malformed) => Err(ReadError::Malformed),
            Err(SubjectError::Memory) => Err(ReadError::Memory),
        }
    }

    pub(crate) fn write(&self, writer: &mut Writer) -> Result<(), AllocError>
        requires { subject_field.Fits self.now }
        ensures { OnOk result (writer.new ≡ writer.old ++ subject_field.spell self.now) }
    {
        writer.put_text(self.as_bytes())
    }
}

fn is_subject(text: &[u8]) -> bool
    ensures { result ≡ is_subject text.now }
{
    (1..=MAX_BYTES).contains(&text.len()) && is_all_visible(text)
}

fn is_all_visible(text: &[u8]) -> bool
    ensures { result ≡ list_all is_visible text.now }
{
    text.iter().all(|b| (0x21..=0x7e).contains(b))
}
