//! The state of a terminal, value by value.
ghost use Rattle.std.specs.Prelude.{◌≡◌, [], ◌∷◌, false, OnErr, OnOk, IfOk, map, true};
ghost use Rattle.std.specs.List.{FoldsTo};
ghost use Rattle.std.specs.Str.{chars};
ghost use Rattle.esc_actions.specs.declared.action.Action.TheVariants as action;
ghost use Rattle.esc_frame.specs.Scans.{IsRun, is_text_byte};
ghost use Rattle.esc_style.specs.Looks.{look_by_all};
ghost use Rattle.esc_sequences.specs.Csis.{csi_value, unspecified};
ghost use Rattle.esc_screen.specs.Grids.{first_grid};
ghost use Rattle.esc_screen.specs.Screens.{grid_of, size_of};
ghost use Rattle.esc_terminal.specs.Fed.{Does, Takes, TakesAll, TakesFunction, TakesSequence, TakesSteps, known_in, names_in, requests_in, screen_size};
ghost use Rattle.esc_terminal.specs.Links.{first_known, known_by_lead, known_by_look, known_look, lead_in, lead_in_parts, lead_of};
ghost use Rattle.esc_terminal.specs.Requests.{request_list};
ghost use Rattle.esc_terminal.specs.Resized.{GetsSize};
ghost use Rattle.esc_terminal.specs.Steps.{choice_steps, lead_known, lead_steps, mode_steps, selected_steps};
ghost use Rattle.esc_terminal.specs.Streams.{names_by_command, no_names};
ghost use Rattle.typed_functions.specs.Functions.{value_of as function_value};
ghost use Rattle.typed_functions.specs.Selections.{renditions_left, modes_left};
ghost use Rattle.fallible_alloc.specs.Refusals.{Refused};

use crate::link_parts::link_in_parts;
use crate::looks::erased_look;
use crate::rectangles::{csi_step, sequence_step};
use crate::request::{Request, request_of};
use crate::steps::{
    charset_step, choice_step, control_step, cursor_step, device_step, edit_step, escape_step,
    mode_step, print_step,
};
use crate::styles::Styles;
use esc_actions::Action;
use esc_osc::{Hyperlink, OperatingSystemCommand};
use esc_screen::{Cursor, Screen, Setting, Step};
use esc_sequences::CSI;
use esc_style::Look;
use esc_values::{CsiParam, Items, Text};
use memchr::memchr;
use std::alloc::{AllocError, Allocator, Global};
use typed_functions::{Function, ModeChange, Modes, Renditions, TabChange};

/// The screen of a terminal, its names, and its requests since they were cleared.
#[derive(Drop)]
pub(crate) struct State<A: Allocator = Global> {
    /// The screen.
    pub screen: Screen<A>,
    /// The looks of its cells and their links, by the numbers that they have.
    pub styles: Styles<A>,
    /// The title of its window, if it has one.
    pub title: Option<Text<A>>,
    /// The name of its icon, if it has one.
    pub icon_name: Option<Text<A>>,
    /// The requests to it.
    pub requests: Vec<Request, A>,
}

impl<A: Allocator + Copy> State<A> {
    /// A blank screen, no names and no requests.
    pub fn new(alloc: A, columns: u16, rows: u16) -> Result<State<A>, AllocError>
        ensures grid { IfOk result (λ p. grid_of p.screen ≡ first_grid (screen_size columns rows)) }
        ensures size { IfOk result (λ p. size_of p.screen ≡ screen_size columns rows) }
        ensures known { IfOk result (λ p. (known_in p ≡ first_known) × (names_in p ≡ no_names)
            × (requests_in p ≡ [])) }
        ensures refused { OnErr result (Refused A) }
    {
        let screen = Screen::new(alloc, rows, columns)?;
        let styles = Styles::new(alloc)?;
        Ok(State {
            screen,
            styles,
            title: None,
            icon_name: None,
            requests: Vec::new(alloc),
        })
    }
}

impl<A: Allocator> State<A> {
    /// The same, but LF returns to the first column.
    pub fn returning(self) -> State<A>
        ensures grid { grid_of result.screen ≡ grid_of self.screen }
        ensures size { size_of result.screen ≡ record (size_of self.screen) { returns = true } }
        ensures known { (known_in result ≡ known_in self) × (names_in result ≡ names_in self) }
        ensures requests { requests_in result ≡ requests_in self }
    {
        let State {
            screen,
            styles,
            title,
            icon_name,
            requests,
        } = self;
        State {
            screen: screen.returning(),
            styles,
            title,
            icon_name,
            requests,
        }
    }

    /// The same, with no requests.
    pub fn cleared(mut self) -> State<A>
        ensures screen { result.screen ≡ self.screen }
        ensures known { known_in result ≡ known_in self }
        ensures names { names_in result ≡ names_in self }
        ensures requests { requests_in result ≡ [] }
    {
        self.requests.clear();
        self
    }

    /// Prints a run of characters 20 to 7F, one byte each, one after another.
    pub fn print_all(&mut self, text: &[u8])
        requires { IsRun is_text_byte text.now }
        ensures { FoldsTo Takes self.old (map action.Print text.now) self.new }
    {
        match memchr(0x7f, text) {
            None => self.screen.print_run(text),
            Some(_) => self.print_each(text),
        }
    }

    // Prints characters, one byte each, one by one.
    fn print_each(&mut self, text: &[u8])
        ensures { FoldsTo Takes self.old (map action.Print text.now) self.new }
    {
        for b in text {
            self.print(*b as char);
        }
    }

    // Prints a character.
    #[inline]
    fn print(&mut self, c: char)
        ensures { Takes self.old (action.Print c) self.new }
    {
        self.screen.take(print_step(c));
    }

    /// Prints characters, one after another.
    pub fn print_str(&mut self, text: &str)
        ensures { FoldsTo Takes self.old (map action.Print (chars text.now)) self.new }
    {
        for c in text.chars() {
            self.print(c);
        }
    }

    // Takes what is done to modes.
    fn take_modes(&mut self, change: ModeChange, modes: Modes<'_>)
        ensures { TakesSteps self.old (mode_steps change (modes_left modes.entry)) self.new }
    {
        for mode in modes {
            self.screen.take(mode_step(change, mode.number));
        }
    }

    // Takes what is done to tab stops.
    fn take_choices(&mut self, change: TabChange, choices: Modes<'_>)
        ensures { TakesSteps self.old (choice_steps change (modes_left choices.entry)) self.new }
    {
        for choice in choices {
            self.screen.take(choice_step(change, choice.number));
        }
    }

    // Takes how the characters look that come.
    fn select(&mut self, look: &Look) -> Result<(), AllocError>
        ensures ok { OnOk result (Does self.old
            (selected_steps look.now self.old.screen.cursor.look (known_in self.old))
            (known_by_look look.now self.old.screen.cursor.look (known_in self.old))
            (names_in self.old) [] self.new) }
        ensures refused { OnErr result (Refused A) }
    {
        let link = self.styles.link_number(self.screen.cursor().look);
        let number = self.styles.keep_look(look)?;
        let erased = self.styles.keep_look(&erased_look(look))?;
        let style = self.styles.keep_linked(number, link)?;
        self.screen.take(Step::Set(Setting::Select(style, erased)));
        Ok(())
    }

    // Takes where the characters lead that come.
    fn lead(&mut self, link: Option<Hyperlink<A>>) -> Result<(), AllocError>
        ensures ok { OnOk result (Does self.old
            (lead_steps self.old.screen.cursor (known_in self.old) (Some (lead_of link)))
            (known_by_lead (lead_of link) self.old.screen.cursor.look (known_in self.old))
            (names_in self.old) [] self.new) }
        ensures refused { OnErr result (Refused A) }
    {
        let Cursor { look, erased, .. } = self.screen.cursor();
        let number = self.styles.look_number(look);
        let link = self.styles.keep_link(link)?;
        let style = self.styles.keep_linked(number, link)?;
        self.screen.take(Step::Set(Setting::Select(style, erased)));
        Ok(())
    }

    // How the characters look that come, after renditions, one after another.
    fn look_after(&self, renditions: Renditions<'_>) -> Look
        ensures { result ≡ look_by_all (known_look self.now.screen.cursor.look (known_in self.now))
            (renditions_left renditions.entry) }
    {
        let mut look = self.styles.look_at(self.screen.cursor().look);
        look.select_all(renditions);
        look
    }

    // Takes what a function does to the screen.
    fn take_steps(&mut self, function: Function<'_>) -> Result<(), AllocError>
        ensures ok { OnOk result (TakesFunction self.old (function_value function.entry)
            self.new) }
        ensures refused { OnErr result (Refused A) }
    {
        match function {
            Function::Cursor(cursor) => {
                let step = cursor_step(self.screen.cursor(), cursor);
                self.screen.take(step);
            }
            Function::Edit(edit) => self.screen.take(edit_step(edit)),
            Function::Device(device) => self.screen.take(device_step(device)),
            Function::Charset(charset) => self.screen.take(charset_step(charset)),
            Function::Escape(escape) => self.screen.take(escape_step(escape)),
            Function::Mode(change, modes) => self.take_modes(change, modes),
            Function::Tabs(change, choices) => self.take_choices(change, choices),
            Function::Sgr(renditions) => {
                let look = self.look_after(renditions);
                return self.select(&look);
            }
            _ => {}
        }
        Ok(())
    }

    /// Notes a request, if there is one.
    pub fn ask(&mut self, request: Option<Request>) -> Result<(), AllocError>
        ensures ok { OnOk result (Does self.old [] (known_in self.old) (names_in self.old)
            (request_list request) self.new) }
        ensures refused { OnErr result (Refused A) }
    {
        match request {
            Some(request) => {
                fallible_alloc::push(&mut self.requests, request)?;
                Ok(())
            }
            None => Ok(()),
        }
    }

    /// Takes the requests of a control sequence or an escape sequence.
    pub fn take_function(&mut self, function: Function<'_>) -> Result<(), AllocError>
        ensures ok { OnOk result (TakesAll self.old (function_value function.entry) self.new) }
        ensures refused { OnErr result (Refused A) }
    {
        self.take_steps(function)?;
        self.ask(request_of(function))
    }

    /// Takes a control sequence with all of these parameters and this final byte.
    pub fn take_sequence(&mut self, params: &[CsiParam], last: u8) -> Result<(), AllocError>
        ensures ok { OnOk result (TakesSequence self.old (unspecified params.now false last)
            self.new) }
        ensures refused { OnErr result (Refused A) }
    {
        let function = Function::of_params(params, last);
        self.take_function(function)?;
        self.screen.take(sequence_step(params, last));
        Ok(())
    }

    // Takes a control sequence.
    fn take_csi(&mut self, csi: &CSI<A>) -> Result<(), AllocError>
        ensures ok { OnOk result (TakesSequence self.old (csi_value csi.now) self.new) }
        ensures refused { OnErr result (Refused A) }
    {
        let function = Function::of(csi);
        self.take_function(function)?;
        self.screen.take(csi_step(csi));
        Ok(())
    }
}

impl<A: Allocator + Copy> State<A> {
    /// Gives the screen so many columns and rows.
    pub fn resize(&mut self, columns: u16, rows: u16) -> Result<(), AllocError>
        ensures resized { OnOk result (GetsSize self.old rows columns self.new) }
        ensures unchanged { OnErr result (self.new ≡ self.old) }
        ensures refused { OnErr result (Refused A) }
    {
        self.screen.resize(rows, columns)
    }

    // Takes a command of these parts, which has no other reading.
    fn lead_in_parts(&mut self, parts: &[Items<u8, A>]) -> Result<(), AllocError>
        ensures ok { OnOk result (Does self.old
            (lead_steps self.old.screen.cursor (known_in self.old) (lead_in_parts A parts.now))
            (lead_known self.old.screen.cursor (known_in self.old) (lead_in_parts A parts.now))
            (names_in self.old) [] self.new) }
        ensures refused { OnErr result (Refused A) }
    {
        let alloc = *self.requests.allocator();
        match link_in_parts(alloc, parts)? {
            Some(link) => self.lead(link),
            None => Ok(()),
        }
    }

    // Takes a command for a name.
    fn take_name(&mut self, command: OperatingSystemCommand<A>) -> Result<(), AllocError>
        ensures ok { OnOk result (Does self.old [] (known_in self.old)
            (names_by_command (names_in self.old) command) [] self.new) }
        ensures refused { OnErr result (Refused A) }
    {
        match command {
            OperatingSystemCommand::SetIconNameAndWindowTitle(name) => self.take_both(name),
            OperatingSystemCommand::SetWindowTitle(title)
            | OperatingSystemCommand::SetWindowTitleSun(title) => {
                self.title = Some(title);
                Ok(())
            }
            OperatingSystemCommand::SetIconName(name)
            | OperatingSystemCommand::SetIconNameSun(name) => {
                self.icon_name = Some(name);
                Ok(())
            }
            _ => Ok(()),
        }
    }

    // Takes a name for the icon that is the title too.
    fn take_both(&mut self, name: Text<A>) -> Result<(), AllocError>
        ensures ok { OnOk result (Does self.old [] (known_in self.old)
            (record { title = Some name; icon_name = Some name }) [] self.new) }
        ensures refused { OnErr result (Refused A) }
    {
        let alloc = *self.requests.allocator();
        self.icon_name = Some(Text::from_str(alloc, name.as_str())?);
        self.title = Some(name);
        Ok(())
    }

    // Takes a command for a link, or for a name.
    fn take_command(&mut self, command: OperatingSystemCommand<A>) -> Result<(), AllocError>
        ensures ok { OnOk result (Does self.old
            (lead_steps self.old.screen.cursor (known_in self.old) (lead_in command))
            (lead_known self.old.screen.cursor (known_in self.old) (lead_in command))
            (names_by_command (names_in self.old) command) [] self.new) }
        ensures refused { OnErr result (Refused A) }
    {
        match command {
            OperatingSystemCommand::SetHyperlink(link) => self.lead(link),
            OperatingSystemCommand::Unspecified(parts) => self.lead_in_parts(parts.as_slice()),
            other => self.take_name(other),
        }
    }

    /// Takes an action.
    pub fn take(&mut self, action: Action<A>) -> Result<(), AllocError>
        ensures ok { OnOk result (Takes self.old action self.new) }
        ensures refused { OnErr result (Refused A) }
    {
        match action {
            Action::Print(c) => {
                self.print(c);
                Ok(())
            }
            Action::Control(code) => {
                self.screen.take(control_step(code));
                Ok(())
            }
            Action::Esc(esc) => self.take_function(Function::of_escape(esc)),
            Action::CSI(csi) => self.take_csi(&csi),
            Action::OperatingSystemCommand(command) => self.take_command(command.into_inner()),
            _ => Ok(()),
        }
    }
}
