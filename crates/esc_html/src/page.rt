//! The writer of a page, action by action.
ghost use Rattle.std.specs.Prelude.{◌≡◌, [], OnErr, OnOk, map, true};
ghost use Rattle.std.specs.List.{filter, list_all};
ghost use Rattle.std.specs.Str.{chars};
ghost use Rattle.esc_actions.specs.declared.action.Action.TheVariants.{Print};
ghost use Rattle.esc_html.specs.Characters.{is_bare};
ghost use Rattle.esc_html.specs.Fed.{Adds, Takes, is_visible, state_of, text_of, with_text};
ghost use Rattle.esc_style.specs.Looks.{look_by, look_by_all};
ghost use Rattle.esc_html.specs.Marks.{command_step, control_step, escape_step, function_step, print_step, redirects, restyles, shows};
ghost use Rattle.esc_html.specs.Pages.{first_state};
ghost use Rattle.esc_html.specs.Renditions.{rendition_by, rendition_of};
ghost use Rattle.esc_parse.specs.Given.{Receives};
ghost use Rattle.esc_sequences.specs.Csis.{sgr, unspecified};
ghost use Rattle.typed_functions.specs.Functions.{of_csi, value_of};
ghost use Rattle.typed_functions.specs.Selections.{renditions_left};
ghost use Rattle.fallible_alloc.specs.Refusals.{Refused};

use crate::address_parts::lead_by;
use crate::bare::are_bare;
use crate::breaks::{begins_line, escape_begins_line};
use crate::character::{are_characters, as_str, shown_as};
use crate::layout::Layout;
use crate::markup::Markup;
use crate::page_look::PageLook;
use crate::passing::pass;
use crate::renditions::{Common, common_rendition, function_of, lone_rendition, rendition_of};
use crate::tags::Tags;
use esc_actions::Action;
use esc_osc::OperatingSystemCommand;
use esc_parse::Sink;
use esc_sequences::csi::{is_unspecified, short_rendition};
use esc_sequences::{Esc, Sgr};
use esc_values::{CsiParam, Text};
use memchr::memchr;
use std::alloc::{AllocError, Allocator, Global};
use typed_functions::{Function, Rendition, Renditions};

// The number of lines after its first one on which a link is opened, if tags are closed at the end
// of each line.
const MORE_LINES: u8 = 15;

/// The text of a page so far, and the state for the next characters.
#[derive(Drop)]
pub(crate) struct Page<A: Allocator = Global> {
    /// The text that was added last.
    pub html: Markup<A>,
    /// How the characters look.
    pub look: PageLook,
    /// The address that they lead to.
    pub link: Option<Text<A>>,
    /// On how many more lines they may, if tags are closed at the end of each.
    pub lines: u8,
    /// Which tags are open.
    pub tags: Tags,
    /// How it is laid out.
    pub layout: Layout,
}

impl<A: Allocator> Page<A> {
    /// An empty page. Takes no memory.
    pub fn new(alloc: A, layout: Layout) -> Page<A>
        ensures text { text_of result ≡ [] }
        ensures state { state_of result ≡ first_state layout.inline }
        ensures layout { result.layout ≡ layout }
    {
        Page {
            html: Markup::new(alloc),
            look: PageLook::plain(),
            link: None,
            lines: 0,
            tags: Tags::Closed,
            layout,
        }
    }

    /// The same page, with no text.
    pub fn emptied(mut self) -> Page<A>
        ensures text { text_of result ≡ [] }
        ensures state { state_of result ≡ state_of self }
        ensures layout { result.layout ≡ self.layout }
    {
        self.html.clear();
        self
    }

    // Shows a character.
    fn show(&mut self, c: char) -> Result<(), AllocError>
        ensures ok { OnOk result (Adds self.old (shows c) self.new) }
        ensures refused { OnErr result (Refused A) }
    {
        self.prepare(self.layout.per_line && c == '\n')?;
        self.html.push_char(c)
    }

    // Shows a printed character, but not DEL, for which terminals show nothing, and U+FFFD in the
    // place of a noncharacter.
    fn take_print(&mut self, c: char) -> Result<(), AllocError>
        ensures ok { OnOk result (Adds self.old (print_step c) self.new) }
        ensures refused { OnErr result (Refused A) }
    {
        if c == '\u{7f}' {
            Ok(())
        } else {
            self.show(shown_as(c))
        }
    }

    // Shows a run of characters, none of which ends a line.
    fn show_run(&mut self, run: &str) -> Result<(), AllocError>
        ensures ok { OnOk result (self.new ≡ with_text self.old run.now) }
        ensures refused { OnErr result (Refused A) }
    {
        if run.is_empty() {
            return Ok(());
        }
        self.open()?;
        self.html.push_text(run)
    }

    // Shows a run of characters that are written as they are.
    fn show_bare(&mut self, run: &str) -> Result<(), AllocError>
        requires { list_all is_bare run.now ≡ true }
        ensures ok { OnOk result (self.new ≡ with_text self.old run.now) }
        ensures refused { OnErr result (Refused A) }
    {
        if run.is_empty() {
            return Ok(());
        }
        self.open()?;
        self.html.push_bare(run)
    }

    // The same for such a run that is printed, in which there is no DEL.
    fn take_bare(&mut self, run: &str) -> Result<(), AllocError>
        requires { list_all is_bare run.now ≡ true }
        ensures ok { OnOk result (self.new ≡ with_text self.old (filter is_visible run.now)) }
        ensures refused { OnErr result (Refused A) }
    {
        self.show_bare(run)
    }

    // Shows a run that is printed, but DEL; one that is written as it is is looked through once.
    fn take_run(&mut self, run: &str) -> Result<(), AllocError>
        ensures ok { OnOk result (self.new ≡ with_text self.old (filter is_visible run.now)) }
        ensures refused { OnErr result (Refused A) }
    {
        if are_bare(run) {
            return self.take_bare(run);
        }
        self.take_parts(run)
    }

    // The same, from one DEL to the next.
    fn take_parts(&mut self, run: &str) -> Result<(), AllocError>
        ensures ok { OnOk result (self.new ≡ with_text self.old (filter is_visible run.now)) }
        ensures refused { OnErr result (Refused A) }
    {
        let mut rest = run;
        while let Some(at) = memchr(0x7f, rest.as_bytes()) {
            self.show_run(&rest[..at])?;
            rest = &rest[at + 1..];
        }
        self.show_run(rest)
    }

    // Shows the printed characters, one by one.
    fn take_each(&mut self, text: &str) -> Result<(), AllocError>
        ensures { Receives ⊥ Takes (λ p a q. Refused A) result self.old
            (map Print (chars text.now)) self.new }
    {
        for c in text.chars() {
            match self.take_print(c) {
                Ok(()) => {}
                Err(error) => return Err(error),
            }
        }
        Ok(())
    }

    // Shows a tab, a line feed if a control begins a line, and no other control.
    fn take_control(&mut self, c: char) -> Result<(), AllocError>
        ensures ok { OnOk result (Adds self.old (control_step c) self.new) }
        ensures refused { OnErr result (Refused A) }
    {
        if c == '\t' {
            self.show(c)
        } else if begins_line(c) {
            self.show('\n')
        } else {
            Ok(())
        }
    }

    // Shows a line feed if an escape sequence begins a line.
    fn take_escape(&mut self, esc: Esc) -> Result<(), AllocError>
        ensures ok { OnOk result (Adds self.old (escape_step esc) self.new) }
        ensures refused { OnErr result (Refused A) }
    {
        if escape_begins_line(esc) {
            self.show('\n')
        } else {
            Ok(())
        }
    }

    // Takes the renditions of a control sequence.
    fn take_function(&mut self, function: Function<'_>) -> Result<(), AllocError>
        ensures ok { OnOk result (Adds self.old
            (function_step (state_of self.old).pen (value_of function.entry)) self.new) }
        ensures refused { OnErr result (Refused A) }
    {
        match function {
            Function::Sgr(renditions) => self.select(renditions),
            _ => Ok(()),
        }
    }

    // Takes a rendition that is a control sequence by itself.
    fn take_rendition(&mut self, rendition: Sgr) -> Result<(), AllocError>
        ensures ok { OnOk result (Adds self.old
            (function_step (state_of self.old).pen (of_csi (sgr rendition))) self.new) }
        ensures refused { OnErr result (Refused A) }
    {
        self.select_one(rendition_of(rendition))
    }

    // The span is closed, and the look changes by one rendition.
    fn select_one(&mut self, rendition: Rendition) -> Result<(), AllocError>
        ensures ok { OnOk result (Adds self.old
            (restyles (look_by (state_of self.old).pen.look rendition)) self.new) }
        ensures refused { OnErr result (Refused A) }
    {
        self.close_span()?;
        self.look.select(rendition);
        Ok(())
    }

    // The span is closed, and the look changes by a rendition that many logs have.
    #[inline]
    fn select_common(&mut self, common: Common) -> Result<(), AllocError>
        ensures ok { OnOk result (Adds self.old
            (restyles (look_by (state_of self.old).pen.look (rendition_by common))) self.new) }
        ensures refused { OnErr result (Refused A) }
    {
        self.close_span()?;
        match common {
            Common::Reset => self.look.reset(),
            Common::Color(color) => self.look.color(color),
            Common::Marked(mark) => self.look.mark(mark),
        }
        Ok(())
    }

    // Takes a control sequence by its parameters.
    fn take_params(
        &mut self,
        params: &[CsiParam],
        parameters_truncated: bool,
        control: u8,
    ) -> Result<(), AllocError>
        ensures ok { OnOk result (Adds self.old (function_step (state_of self.old).pen
            (of_csi (unspecified params.now parameters_truncated control))) self.new) }
        ensures refused { OnErr result (Refused A) }
    {
        match lone_rendition(params, parameters_truncated, control) {
            Some(rendition) => self.select_one(rendition),
            None => self.take_function(function_of(params, parameters_truncated, control)),
        }
    }

    // The span is closed, and the look changes.
    fn select(&mut self, renditions: Renditions<'_>) -> Result<(), AllocError>
        ensures ok { OnOk result (Adds self.old
            (restyles (look_by_all (state_of self.old).pen.look (renditions_left renditions.entry)))
            self.new) }
        ensures refused { OnErr result (Refused A) }
    {
        self.close_span()?;
        self.look.select_all(renditions);
        Ok(())
    }

    // Takes a command for a link.
    fn take_command(&mut self, command: OperatingSystemCommand<A>) -> Result<(), AllocError>
        ensures ok { OnOk result (Adds self.old
            (command_step (state_of self.old).pen command) self.new) }
        ensures refused { OnErr result (Refused A) }
    {
        match lead_by(command)? {
            Some(address) => self.lead(address),
            None => Ok(()),
        }
    }

    // The tags are closed, and the link changes.
    fn lead(&mut self, address: Option<Text<A>>) -> Result<(), AllocError>
        ensures ok { OnOk result (Adds self.old (redirects address) self.new) }
        ensures refused { OnErr result (Refused A) }
    {
        self.close()?;
        self.link = address;
        self.lines = MORE_LINES;
        Ok(())
    }
}

/// Each action adds the characters that it shows to the text.
impl<A: Allocator> Sink<Action<A>> for Page<A> {
    ghost is_ready = { λ _. Unit {0} };

    ghost may = { λ _ _. Unit {0} };

    ghost takes = { Takes };

    ghost refuses = { λ p a q. Refused A };

    fn receive(&mut self, action: Action<A>) -> Result<(), AllocError> {
        match action {
            Action::Print(c) => self.take_print(c),
            Action::Control(code) => self.take_control(code.as_char()),
            Action::Esc(esc) => self.take_escape(esc),
            Action::CSI(csi) => self.take_function(Function::of(&csi)),
            Action::OperatingSystemCommand(command) => self.take_command(command.into_inner()),
            other => {
                pass(other);
                Ok(())
            }
        }
    }

    #[inline]
    fn receive_text(&mut self, text: &[u8]) -> Result<(), AllocError> {
        self.take_run(as_str(text))
    }

    #[inline]
    fn receive_str(&mut self, text: &str) -> Result<(), AllocError> {
        if are_characters(text) {
            self.take_run(text)
        } else {
            self.take_each(text)
        }
    }

    // Takes it with no action made, if it is one: renditions that are sequences by themselves are
    // several.
    #[inline]
    fn receive_sequence(
        &mut self,
        params: &[CsiParam],
        parameters_truncated: bool,
        control: u8,
    ) -> Result<bool, AllocError> {
        if let Some(common) = common_rendition(params, parameters_truncated, control) {
            self.select_common(common)?;
            return Ok(true);
        }
        if let Some(rendition) = short_rendition(params, parameters_truncated, control) {
            self.take_rendition(rendition)?;
            return Ok(true);
        }
        if !is_unspecified(params, parameters_truncated, control) {
            return Ok(false);
        }
        self.take_params(params, parameters_truncated, control)?;
        Ok(true)
    }

    fn drops_images(&self) -> bool {
        true
    }

    // The next methods are as by default, and written out: at the type of an action, a method that
    // is taken over from the trait costs a proof some seconds more.
    #[inline]
    fn receive_command(&mut self, _text: &[u8]) -> Result<bool, AllocError> {
        Ok(false)
    }

    #[inline]
    fn drops_sequences(&self, _control: u8) -> bool {
        false
    }
}
