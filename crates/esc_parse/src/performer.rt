//! This module makes actions of events.
ghost use Rattle.std.specs.Prelude.{◌≡◌, ◌⊎◌, ℕ, [], ◌∷◌, true, IfOk, OnErr, Option, map};
ghost use Rattle.std.specs.List.{FoldsTo};
ghost use Rattle.esc_values.specs.Clear.{parts_of};
ghost use Rattle.esc_sequences.specs.Csis.{csi_of, csi_value};
ghost use Rattle.esc_frame.specs.Events.{Awaits};
ghost use Rattle.esc_parse.specs.Given.{AnyAt, At, StopsAt};
ghost use Rattle.esc_parse.specs.Sinks.{Gave, MayGive, StaysReady};
ghost use Rattle.esc_actions.specs.Values.{Mode, mode_after, csi, datum, event_values, only_item, osc, value_of, wants_memory};
ghost use Rattle.esc_osc.specs.Reading.{meaning as command_meant};
ghost use Rattle.esc_osc.specs.declared.command.OperatingSystemCommand.{OperatingSystemCommand};
ghost use Rattle.fallible_alloc.specs.Refusals.{Refused};

use crate::commands::command_in;
use crate::dcs_payload::header_action;
use crate::sink::Sink;
use crate::unfinished::Unfinished;
use esc_actions::{Action, ControlCode};
use esc_device::{DeviceControlMode, StringKind};
use esc_frame::actor::VTActor;
use esc_kitty::KittyImage;
use esc_osc::OperatingSystemCommand;
use esc_sequences::csi::short_rendition;
use esc_sequences::{CSI, Esc};
use esc_values::{Boxed, CsiParam};
use std::alloc::{AllocError, Allocator, Global};

/// Makes actions of events, and gives them to a sink.
#[derive(Drop)]
pub struct Performer<S, A: Allocator = Global> {
    /// The sink.
    pub sink: S,
    /// The allocator.
    pub alloc: A,
    /// The device control string that is unfinished.
    pub unfinished: Unfinished<A>,
}

// Returns the intermediate, if there is exactly one.
fn lone_of(intermediates: &[u8]) -> Option<u8>
    ensures { result ≡ only_item intermediates.now }
{
    let (first, rest) = intermediates.split_first()?;
    if rest.is_empty() { Some(*first) } else { None }
}

// Gives the sink these control sequences, one after another.
fn give_all<A: Allocator, S: Sink<Action<A>>>(
    sink: &mut S,
    values: Vec<CSI<A>, A>,
) -> Result<(), AllocError>
    requires { MayGive S.Sink sink.old (map csi (map csi_value values.items)) }
    ensures ready { StaysReady S.Sink sink.old result sink.new }
    ensures given { Gave S.Sink (Refused A) sink.old
        (map csi (map csi_value values.items)) result sink.new }
{
    for value in values {
        sink.receive(Action::CSI(value))?;
    }
    Ok(())
}

// Gives the sink the values of a control sequence, apart from the code that gives one short
// rendition.
#[inline(never)]
fn give_sequence<A: Allocator + Copy, S: Sink<Action<A>>>(
    sink: &mut S,
    alloc: A,
    params: &[CsiParam],
    parameters_truncated: bool,
    byte: u8,
) -> Result<(), AllocError>
    requires { MayGive S.Sink sink.old (map csi (csi_of params.now parameters_truncated byte)) }
    ensures ready { StaysReady S.Sink sink.old result sink.new }
    ensures given { Gave S.Sink (Refused A) sink.old
        (map csi (csi_of params.now parameters_truncated byte)) result sink.new }
{
    match CSI::parse_one(alloc, params, parameters_truncated, byte) {
        Ok(Some(value)) => sink.receive(Action::CSI(value)),
        Ok(None) => give_several(sink, alloc, params, parameters_truncated, byte),
        Err(error) => Err(error),
    }
}

// Gives the sink the values of a control sequence that means more than one.
#[inline(never)]
fn give_several<A: Allocator + Copy, S: Sink<Action<A>>>(
    sink: &mut S,
    alloc: A,
    params: &[CsiParam],
    parameters_truncated: bool,
    byte: u8,
) -> Result<(), AllocError>
    requires { MayGive S.Sink sink.old (map csi (csi_of params.now parameters_truncated byte)) }
    ensures ready { StaysReady S.Sink sink.old result sink.new }
    ensures given { Gave S.Sink (Refused A) sink.old
        (map csi (csi_of params.now parameters_truncated byte)) result sink.new }
{
    match CSI::parse(alloc, params, parameters_truncated, byte) {
        Ok(values) => give_all(sink, values),
        Err(error) => Err(error),
    }
}

// Does the same, if the sink may take it from its parameters. The action of one short rendition is
// made here.
#[inline(never)]
fn give_csi<A: Allocator + Copy, S: Sink<Action<A>>>(
    sink: &mut S,
    alloc: A,
    params: &[CsiParam],
    parameters_truncated: bool,
    byte: u8,
) -> Result<(), AllocError>
    requires { MayGive S.Sink sink.old (map csi (csi_of params.now parameters_truncated byte)) }
    ensures ready { StaysReady S.Sink sink.old result sink.new }
    ensures given { Gave S.Sink (Refused A) sink.old
        (map csi (csi_of params.now parameters_truncated byte)) result sink.new }
{
    match sink.receive_sequence(params, parameters_truncated, byte) {
        Ok(true) => Ok(()),
        Ok(false) => match short_rendition(params, parameters_truncated, byte) {
            Some(sgr) => sink.receive(Action::CSI(CSI::Sgr(sgr))),
            None => give_sequence(sink, alloc, params, parameters_truncated, byte),
        },
        Err(error) => Err(error),
    }
}

// Gives the sink a command that was made, if there was memory for it.
fn give_command<A: Allocator + Copy, S: Sink<Action<A>>>(
    sink: &mut S,
    alloc: A,
    command: Result<OperatingSystemCommand<A>, AllocError>,
) -> Result<(), AllocError>
    requires { S.is_ready sink.old ⊎ ((c : OperatingSystemCommand A)
        × IfOk command (λ d. d ≡ c)
        × Awaits (AnyAt value_of S.may) (At value_of S.takes) sink.old (osc c ∷ [])) }
    ensures ready { StaysReady S.Sink sink.old result sink.new }
    ensures given { (c : OperatingSystemCommand A) → IfOk command (λ d. d ≡ c)
        → OnErr command (Refused A)
        → Gave S.Sink (Refused A) sink.old (osc c ∷ []) result sink.new }
{
    match command {
        Ok(command) => match Boxed::new(alloc, command) {
            Ok(boxed) => sink.receive(Action::OperatingSystemCommand(boxed)),
            Err(error) => Err(error),
        },
        Err(error) => Err(error),
    }
}

// Gives the sink the command of this text, which it may take from the text.
fn give_text<A: Allocator + Copy, S: Sink<Action<A>>>(
    sink: &mut S,
    alloc: A,
    text: &[u8],
) -> Result<(), AllocError>
    requires { MayGive S.Sink sink.old (osc (command_meant (parts_of text.now)) ∷ []) }
    ensures ready { StaysReady S.Sink sink.old result sink.new }
    ensures given { Gave S.Sink (Refused A) sink.old
        (osc (command_meant (parts_of text.now)) ∷ []) result sink.new }
{
    match sink.receive_command(text) {
        Ok(true) => Ok(()),
        Ok(false) => give_command(sink, alloc, command_in(alloc, text)),
        Err(error) => Err(error),
    }
}

// Gives the sink these bytes of the data of a mode, one after another.
fn give_data<A: Allocator, S: Sink<Action<A>>>(sink: &mut S, bytes: &[u8]) -> Result<(), AllocError>
    requires { MayGive S.Sink sink.old (map datum bytes.now) }
    ensures ready { StaysReady S.Sink sink.old result sink.new }
    ensures given { Gave S.Sink ⊥ sink.old (map datum bytes.now) result sink.new }
{
    for byte in bytes {
        match sink.receive(Action::DeviceControl(DeviceControlMode::Data(*byte))) {
            Ok(()) => {}
            Err(error) => return Err(error),
        }
    }
    Ok(())
}

impl<A: Allocator + Copy, S: Sink<Action<A>>> VTActor for Performer<S, A> {
    ghost use Rattle.esc_parse.specs.Fed.{Hooks};

    ghost takes = { λ p e q. (limit : Option ℕ) (m : Mode) → Hooks limit p.unfinished m
        → Hooks limit q.unfinished (mode_after m e)
        × FoldsTo (At value_of S.takes) p.sink (event_values limit m e) q.sink };

    ghost refuses = { λ p e q. (limit : Option ℕ) (m : Mode) → Hooks limit p.unfinished m
        → StopsAt ((wants_memory e ≡ true) × Refused A) (At value_of S.takes)
        (At value_of S.refuses) p.sink (event_values limit m e) q.sink };

    ghost is_ready = { λ p. S.is_ready p.sink };

    ghost may = { λ p e. (limit : Option ℕ) × (m : Mode) × Hooks limit p.unfinished m
        × Awaits (AnyAt value_of S.may) (At value_of S.takes) p.sink (event_values limit m e) };

    fn print(&mut self, c: char) -> Result<(), AllocError> {
        self.sink.receive(Action::Print(c))
    }

    fn print_text(&mut self, text: &[u8]) -> Result<(), AllocError> {
        match self.sink.receive_text(text) {
            Ok(()) => Ok(()),
            Err(error) => Err(error),
        }
    }

    fn print_str(&mut self, text: &str) -> Result<(), AllocError> {
        match self.sink.receive_str(text) {
            Ok(()) => Ok(()),
            Err(error) => Err(error),
        }
    }

    fn execute_c0_or_c1(&mut self, control: u8) -> Result<(), AllocError> {
        match ControlCode::from_byte(control) {
            Some(code) => self.sink.receive(Action::Control(code)),
            None => Ok(()),
        }
    }

    fn dcs_hook(
        &mut self,
        byte: u8,
        params: &[i64],
        intermediates: &[u8],
        ignored_extra_intermediates: bool,
    ) -> Result<(), AllocError> {
        let kind = StringKind::of_header(byte, intermediates, ignored_extra_intermediates);
        self.unfinished
            .begin(self.alloc, kind, byte, params, intermediates)?;
        match kind {
            StringKind::Other => {
                let enter = header_action(
                    self.alloc,
                    byte,
                    params,
                    intermediates,
                    ignored_extra_intermediates,
                )?;
                self.sink.receive(enter)
            }
            StringKind::Sixel | StringKind::Termcap | StringKind::Short => Ok(()),
        }
    }

    #[inline]
    fn dcs_put(&mut self, byte: u8) -> Result<(), AllocError> {
        if self.unfinished.is_entered() {
            let action = Action::DeviceControl(DeviceControlMode::Data(byte));
            self.sink.receive(action)
        } else {
            self.unfinished.push(byte)
        }
    }

    #[inline]
    fn dcs_put_text(&mut self, bytes: &[u8]) -> Result<(), AllocError> {
        if self.unfinished.is_entered() {
            match give_data(&mut self.sink, bytes) {
                Ok(()) => Ok(()),
                Err(error) => Err(error),
            }
        } else {
            match self.unfinished.push_run(bytes) {
                Ok(()) => Ok(()),
                Err(error) => Err(error),
            }
        }
    }

    fn dcs_unhook(&mut self) -> Result<(), AllocError> {
        if self.sink.drops_images() && self.unfinished.is_sixel() {
            self.unfinished.clear();
            return Ok(());
        }
        match self.unfinished.end(self.alloc) {
            Ok(Some(action)) => self.sink.receive(action),
            Ok(None) => Ok(()),
            Err(error) => Err(error),
        }
    }

    fn esc_dispatch(
        &mut self,
        _params: &[i64],
        intermediates: &[u8],
        _ignored_extra_intermediates: bool,
        byte: u8,
    ) -> Result<(), AllocError> {
        let esc = Esc::parse(lone_of(intermediates), byte);
        self.sink.receive(Action::Esc(esc))
    }

    fn csi_dispatch(
        &mut self,
        params: &[CsiParam],
        parameters_truncated: bool,
        byte: u8,
    ) -> Result<(), AllocError> {
        if !parameters_truncated && self.sink.drops_sequences(byte) {
            return Ok(());
        }
        give_csi(
            &mut self.sink,
            self.alloc,
            params,
            parameters_truncated,
            byte,
        )
    }

    fn osc_dispatch(&mut self, params: &[&[u8]]) -> Result<(), AllocError> {
        let command = OperatingSystemCommand::parse(self.alloc, params);
        give_command(&mut self.sink, self.alloc, command)
    }

    fn osc_text<B: Allocator>(&mut self, _alloc: B, text: &[u8]) -> Result<(), AllocError> {
        give_text(&mut self.sink, self.alloc, text)
    }

    fn apc_dispatch(&mut self, text: &[u8]) -> Result<(), AllocError> {
        if self.sink.drops_images() {
            return Ok(());
        }
        match KittyImage::parse_apc(self.alloc, text) {
            Ok(Some(image)) => match Boxed::new(self.alloc, image) {
                Ok(boxed) => self.sink.receive(Action::KittyImage(boxed)),
                Err(error) => Err(error),
            },
            Ok(None) => Ok(()),
            Err(error) => Err(error),
        }
    }
}
