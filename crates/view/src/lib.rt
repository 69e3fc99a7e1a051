// The reading view of a sheet: a record that refers to the caller's bytes, with one thin function for each question.
#![tactic(auto)]

ghost use Rattle.std.specs.Prelude.{◌≡◌};
ghost use Rattle.numbers.specs.Bytes.{IsPart};
ghost use Rattle.shown.specs.Following.{following, following_from};
ghost use Rattle.view.specs.Views.{states_of, commands_of, viewed, viewed_from};

// The caller's sheet and its counts.
#[derive(Clone, Copy, Debug, PartialEq, Eq)]
pub struct View<'a> {
    pub sheet: &'a [u8],
    pub states: usize,
    pub commands: usize,
}

impl<'a> View<'a> {
    // A view of a sheet. A refused sheet has no states and no commands in it.
    pub fn of(sheet: &'a [u8]) -> View<'a>
        ensures { (result.sheet ≡ sheet.entry) × (result.states ≡ states_of sheet.now) × (result.commands ≡ commands_of sheet.now) }
    {
        let head = shown::shown_head(sheet);
        View {
            sheet,
            states: head.states,
            commands: head.commands,
        }
    }

    pub fn states(self) -> usize
        ensures { result ≡ self.entry.states }
    {
        self.states
    }

    pub fn commands(self) -> usize
        ensures { result ≡ self.entry.commands }
    {
        self.commands
    }

    // The bytes of the following set of a command and a state, as a part of the caller's sheet: no bytes where either is missing.
    pub fn following(self, command: usize, state: usize) -> &'a [u8]
        ensures { IsPart self.entry.sheet (viewed_from self.entry.sheet.now self.entry.states self.entry.commands command state) (viewed self.entry.sheet.now self.entry.states self.entry.commands command state) result }
    {
        if command < self.commands {
            shown::shown_at(self.sheet, self.states, command, state)
        } else {
            &self.sheet[0..0]
        }
    }
}

// The same from a sheet to its bytes: whoever calls it sees no view.
pub fn shown<'a>(sheet: &'a [u8], command: usize, state: usize) -> &'a [u8]
    ensures { IsPart sheet.entry (following_from sheet.now command state) (following sheet.now command state) result }
{
    View::of(sheet).following(command, state)
}
