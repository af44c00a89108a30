//! Behind an error tokens are read from the next document boundary on.
ghost use Rattle.std.specs.Prelude.{◌≡◌, true, false, IfErr, IfOk, IfSome, IsOk};
ghost use Rattle.std.specs.Option.{option_map};
ghost use Rattle.granit_cursor.specs.Reading.{Moves};
ghost use Rattle.granit_error.specs.FaultKind as faults;
ghost use Rattle.granit_scan.specs.Recovering.{MakesNoLexeme, ProceedsUnless, Rests, ScannerProceeds};
ghost use Rattle.granit_scan.specs.Scanning as spec;
ghost use Rattle.granit_scan.specs.Scanning.{CallFails, KeepsCopy, MovesAsked, ScannerIn, ScannerKeeps, UnlessFailed};
ghost use Rattle.granit_scan.specs.TokenMemory.{KeepsWhole};
ghost use Rattle.granit_scan.specs.TokenSteps.{TokenState};
ghost use Rattle.granit_scan.specs.TokenViews.{plain_token};

use crate::scanner::Scanner;
use granit_base::NoMemory;
use granit_cursor::Token;
use granit_error::ScanError;
use granit_input::BorrowedInput;
use granit_items::Lexeme;

impl<'input, T: BorrowedInput<'input>> Scanner<'input, T> {
    /// Goes on at the next document boundary: a `---`, a `...` that is passed with its line, or the end. It may be the
    /// token that the last call gave, which is then handed back, one that waits, or the next one in the text. What is
    /// open is dropped, and the start of the stream with it.
    ///
    /// # Errors
    ///
    /// The error of the input's source, and `NoMemory`, where a mark that was read is kept or a `---` of the text is
    /// read. Then no token is given any more, and each further call answers that again.
    pub fn proceed_next_document(&mut self, token: Option<Token<'input>>) -> Result<(), ScanError>
        ensures known { (m : TokenState) → Rests T.unread self.old m
            → IfSome token.entry (λ t. self.old.first ≡ None)
            → ProceedsUnless T.unread T.origin result (option_map plain_token token.entry) m self.old self.new }
        ensures standing { (m : TokenState) → ScannerIn T.unread self.old m
            → IfSome token.entry (λ t. self.old.first ≡ None)
            → ProceedsUnless T.unread T.origin result (option_map plain_token token.entry) m self.old self.new }
        ensures source { UnlessFailed T.origin self.old self.new
            (λ e. (result ≡ Err e) × KeepsCopy (Some e) self.new.source_error)
            (IfErr result (λ e. e.kind ≡ faults.NoMemory) × (self.new.source_error ≡ None)) }
        ensures memory { MakesNoLexeme T.unread (option_map plain_token token.entry) self.old
            → UnlessFailed T.origin self.old self.new (λ e. Unit {0}) (IsOk result) }
        ensures copied { UnlessFailed T.origin self.old self.new (λ e. KeepsWhole e self.new.source_error) (Unit {0}) }
        ensures going { IfOk result (λ x. self.new ≡ spec.revived self.new) }
        ensures failed { IfErr result (λ e. CallFails self.old self.new e.kind) }
        ensures over { self.old.wants_memory ≡ true → IfOk result (λ x. ⊥) }
        ensures comments { self.new.comments ≡ self.old.comments }
        ensures options { self.new.items.options ≡ self.old.items.options }
        ensures moves { MovesAsked T.left T.origin (record self.old { failed = false }) self.new }
    {
        match self.proceed(token) {
            Ok(()) => {
                self.revive();
                Ok(())
            }
            Err(error) => {
                self.stop(&error);
                Err(error)
            }
        }
    }

    /// Tokens are given again.
    fn revive(&mut self)
        ensures { self.new ≡ spec.revived self.old }
    {
        self.first = None;
        self.ended = false;
        self.failed = false;
        self.failed_in_directive = false;
    }

    /// As `restart`, or the error of the source in the place of that.
    fn proceed(&mut self, token: Option<Token<'input>>) -> Result<(), ScanError>
        ensures known { (m : TokenState) → Rests T.unread self.old m
            → IfSome token.entry (λ t. self.old.first ≡ None)
            → UnlessFailed T.origin self.old self.new (λ e. result ≡ Err e)
            (IfOk result (λ x. ScannerProceeds T.unread self.old.items.cursor (option_map plain_token token.entry) m
            (spec.revived self.new))) }
        ensures source { UnlessFailed T.origin self.old self.new
            (λ e. (result ≡ Err e) × KeepsCopy (Some e) self.new.source_error)
            (IfErr result (λ e. e.kind ≡ faults.NoMemory) × (self.new.source_error ≡ None)) }
        ensures memory { MakesNoLexeme T.unread (option_map plain_token token.entry) self.old
            → UnlessFailed T.origin self.old self.new (λ e. Unit {0}) (IsOk result) }
        ensures copied { UnlessFailed T.origin self.old self.new (λ e. KeepsWhole e self.new.source_error) (Unit {0}) }
        ensures over { self.old.wants_memory ≡ true → IfOk result (λ x. ⊥) }
        ensures keeps { ScannerKeeps (record self.old { source_error = self.new.source_error }) self.new }
        ensures moves { MovesAsked T.left T.origin (record self.old { failed = false }) self.new }
    {
        let restarted = self.restart(token);
        self.ask_source();
        match self.give_source_error() {
            None => restarted,
            Some(error) => Err(error),
        }
    }

    /// Goes on at the next boundary; nothing is open any more.
    fn restart(&mut self, token: Option<Token<'input>>) -> Result<(), ScanError>
        ensures known { (m : TokenState) → Rests T.unread self.old m
            → IfSome token.entry (λ t. self.old.first ≡ None)
            → IfOk result (λ x. ScannerProceeds T.unread self.old.items.cursor (option_map plain_token token.entry) m
            (spec.revived self.new)) }
        ensures refused { IfErr result (λ e. e.kind ≡ faults.NoMemory) }
        ensures memory { MakesNoLexeme T.unread (option_map plain_token token.entry) self.old → IsOk result }
        ensures over { self.old.wants_memory ≡ true → IfOk result (λ x. ⊥) }
        ensures keeps { ScannerKeeps self.old self.new }
        ensures moves { Moves T.unread T.left T.origin self.old.items.cursor self.new.items.cursor }
    {
        if self.wants_memory || self.items.is_lost() {
            drop(token);
            return Err(ScanError::from(NoMemory));
        }
        let mark: Option<Box<Lexeme<'input>>> = self.writer.take_mark(self.alloc, token)?;
        self.items.restart(mark, &mut self.rooms)?;
        self.writer.begin_anew();
        Ok(())
    }
}
