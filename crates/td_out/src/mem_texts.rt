//! Texts in memory.

ghost use Rattle.std.specs.Prelude.{◌≡◌, ℕ, ◌≤◌, ◌⊎◌, List, Option, Some, option_map, MatchResult};
ghost use Rattle.std.specs.List.{find};
ghost use Rattle.std.specs.Str.{bytes_eq};
ghost use Rattle.td_out.specs.Texts.{NamedText, HasText};
ghost use Rattle.td_out.specs.InMemory.{named_texts, as_given, answer_of, left_by};
ghost use Rattle.td_out.specs.declared.fault.TextFault.TheVariants.{Memory as of_memory};

use crate::calls::Calls;
use crate::fault::TextFault;
use crate::texts::{LONGEST_TEXT, Texts};
use std::alloc::Global;
use std::marker::Model;
use td_cdr::{List, Octets, Text};

/// Texts that lie in memory with their names, some of whose calls fail.
#[derive(Debug, Drop)]
pub struct MemTexts {
    files: List<(Text, Octets)>,
    calls: Calls,
}

impl Model for MemTexts {
    ghost use Rattle.td_out.specs.InMemory.{Shelf, named_texts};

    ghost Value = { Shelf };

    ghost view = { λ s. record { texts = named_texts s.files; calls = s.calls } };
}

impl MemTexts {
    /// Texts with their names; of two texts of one name the first counts. `failing` has the numbers of the
    /// calls that fail, counted from 1.
    pub fn new(files: List<(Text, Octets)>, failing: List<u64>) -> MemTexts
        ensures { result ≡ record {
          texts = named_texts files;
          calls = record { failing = failing; made = 0; faults = 0 };
        } }
    {
        MemTexts {
            files,
            calls: Calls::new(failing),
        }
    }

    /// What a call gives, before it is counted.
    fn found(&self, name: &[u8]) -> Result<&[u8], TextFault>
        ensures { MatchResult result (λ text. answer_of self.now name.now ≡ Ok text.now)
            (λ e. answer_of self.now name.now ≡ Err e) }
    {
        if self.calls.fails() {
            return Err(TextFault::Failed);
        }
        as_given(find_text(&self.files, name))
    }

    /// Counts a call that gave no text. Out of memory leaves all as it was.
    fn count_refusal(&mut self, fault: TextFault)
        ensures left { self.new ≡ left_by (Err fault) self.old }
        ensures later { self.old.calls.faults ≤ self.new.calls.faults }
    {
        match fault {
            TextFault::Failed => self.calls.count_fault(),
            TextFault::TooLong => self.calls.count(),
            TextFault::Memory => {}
        }
    }
}

impl Texts for MemTexts {
    ghost content = { λ s. Some s.texts };

    ghost faults = { λ s. s.calls.faults };

    ghost same = { λ _ _. Unit {0} };

    ghost same_on = { λ _ _ _ _ _. tt };

    fn text(&mut self, alloc: Global, name: &str) -> Result<Octets, TextFault>
        ensures same { Unit {0} }
        ensures kept { Some self.new.texts ≡ Some self.old.texts }
        ensures later { self.old.calls.faults ≤ self.new.calls.faults }
        ensures gives { HasText (Some self.old.texts)
            name.now self.old.calls.faults self.new.calls.faults result }
        ensures exact { (result ≡ answer_of self.old name.now) ⊎ (result ≡ Err of_memory) }
        ensures left { self.new ≡ left_by result self.old }
    {
        match self.found(name.as_bytes()) {
            Err(fault) => {
                self.count_refusal(fault);
                Err(fault)
            }
            Ok(text) => {
                let text = Octets::from_slice(alloc, text)?;
                self.calls.count();
                Ok(text)
            }
        }
    }
}

/// A text as it is given.
fn as_given(text: Option<&[u8]>) -> Result<&[u8], TextFault>
    ensures { MatchResult result (λ given. as_given (option_map (λ t. t.now) text.entry)
        ≡ Ok given.now) (λ e. as_given (option_map (λ t. t.now) text.entry) ≡ Err e) }
{
    match text {
        None => Err(TextFault::Failed),
        Some(text) => {
            if text.len() > LONGEST_TEXT {
                Err(TextFault::TooLong)
            } else {
                Ok(text)
            }
        }
    }
}

/// The first text of that name.
fn find_text<'a>(files: &'a [(Text, Octets)], name: &[u8]) -> Option<&'a [u8]>
    ensures { option_map (λ t. t.now) result
        ≡ option_map (λ f. f.1) (find (λ f. bytes_eq f.0 name.now) files.now) }
{
    let file = files.iter().find(|f| f.0.as_slice() == name)?;
    Some(file.1.as_slice())
}
