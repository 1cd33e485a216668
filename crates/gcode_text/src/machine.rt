//! The machine that a printing program drives.
ghost use Rattle.std.specs.Prelude.{◌≡◌, ◌<◌, length, IfOk, IfErr, Ok, Err};
ghost use Rattle.text_scan.specs.Marks.{first_at};
ghost use Rattle.gcode_text.specs.Reading.{words};
ghost use Rattle.gcode_text.specs.Machine.{State, start, counting, line_step, words_line, command_line, limited, obeyed, driven, homed, counted_as, stays, extrudes, move_between};

use crate::command::{Command, command_of};
use crate::fault::GFault;
use crate::letters::Given;
use crate::scan::{code_of, skip_spaces};
use crate::statement::with_words;
use scad_geom::Pt3;
use std::marker::Model;
use text_scan::first_at;

/// A move: axes in micrometres, amounts of filament in hundred-thousandths of a millimetre.
#[derive(Clone, Copy)]
pub struct Move {
    pub from: Pt3,
    pub to: Pt3,
    pub from_e: i64,
    pub to_e: i64,
    /// Whether filament is extruded: the line has an amount that doesn't fall, and X or Y changes.
    pub extruding: bool,
}

/// A machine that reads a printing program line by line. It starts with all axes and the amount of filament at 0.
#[derive(Drop)]
pub struct Machine {
    at: Pt3,
    e: i64,
    lines: u32,
}

impl Model for Machine {
    ghost Value = { State };

    ghost view = { λ m. record { at = m.at; e = m.e; lines = m.lines } };
}

impl Machine {
    /// A machine at the origin with no filament used.
    pub fn new() -> Machine
        ensures { result ≡ start }
    {
        Machine {
            at: Pt3 { x: 0, y: 0, z: 0 },
            e: 0,
            lines: 0,
        }
    }

    /// Reads one line, without its line feed, and answers its move, if it is a move. A refusal has the number of
    /// the line, which is that of the call, from 1, and stays at the greatest; it changes neither position nor
    /// amount.
    #[tactic(auto, unfolding(crate::specs::Machine::line_step))]
    pub fn step(&mut self, line: &[u8]) -> Result<Option<Move>, GFault>
        ensures accepted { IfOk result (λ it.
            line_step limited self.old line.now ≡ Ok (record { state = self.new; move = it })) }
        ensures refused { IfErr result (λ fault. line_step limited self.old line.now ≡ Err fault) }
        ensures unchanged { IfErr result (λ fault. self.new ≡ counting self.old) }
    {
        self.count();
        let text = skip_spaces(code_of(line));
        if text.len() > 0 {
            self.first_word(text)
        } else {
            Ok(None)
        }
    }

    fn count(&mut self)
        ensures { self.new ≡ counting self.old }
    {
        self.lines = self.lines.saturating_add(1);
    }

    fn line(&self) -> u32
        ensures { result ≡ self.now.lines }
    {
        self.lines
    }

    // The command in front, and the words behind it.
    fn first_word(&mut self, text: &[u8]) -> Result<Option<Move>, GFault>
        requires some { 0 < length text.now }
        requires word { 0 < first_at 32 text.now }
        ensures accepted { IfOk result (λ it.
            words_line limited self.old (words text.now) ≡ Ok (record { state = self.new; move = it })) }
        ensures refused { IfErr result (λ fault. words_line limited self.old (words text.now) ≡ Err fault) }
        ensures unchanged { IfErr result (λ fault. self.new ≡ self.old) }
    {
        let len = first_at(text, b' ');
        self.command(command_of(&text[..len]), &text[len..])
    }

    fn command(&mut self, command: Option<Command>, rest: &[u8]) -> Result<Option<Move>, GFault>
        ensures accepted { IfOk result (λ it.
            command_line limited self.old command (words rest.now) ≡ Ok (record { state = self.new; move = it })) }
        ensures refused { IfErr result (λ fault. command_line limited self.old command (words rest.now) ≡ Err fault) }
        ensures unchanged { IfErr result (λ fault. self.new ≡ self.old) }
    {
        match command {
            Some(known) => match with_words(self.line(), known, rest) {
                Ok(given) => Ok(self.obey(known, given)),
                Err(fault) => Err(fault),
            },
            None => Err(GFault::UnknownWord(self.line())),
        }
    }

    fn obey(&mut self, command: Command, given: Given) -> Option<Move>
        ensures { record { state = self.new; move = result } ≡ obeyed self.old command given }
    {
        match command {
            Command::Drive => Some(self.drive(given)),
            Command::Home => {
                self.home(given);
                None
            }
            Command::Set => {
                self.set(given);
                None
            }
            Command::Plain => None,
        }
    }

    #[tactic(auto, unfolding(crate::specs::Machine::extrudes))]
    fn drive(&mut self, given: Given) -> Move
        ensures state { self.new ≡ driven given self.old }
        ensures value { result ≡ move_between (extrudes given self.old (driven given self.old)) self.old (driven given self.old) }
    {
        let from = self.at;
        let from_e = self.e;
        self.go(given);
        Move {
            from,
            to: self.at,
            from_e,
            to_e: self.e,
            extruding: given.e.is_some() && !stays(from, self.at) && from_e <= self.e,
        }
    }

    fn go(&mut self, given: Given)
        ensures { self.new ≡ driven given self.old }
    {
        self.at.x = given.x.unwrap_or(self.at.x);
        self.at.y = given.y.unwrap_or(self.at.y);
        self.at.z = given.z.unwrap_or(self.at.z);
        self.e = given.e.unwrap_or(self.e);
    }

    fn home(&mut self, given: Given)
        ensures { self.new ≡ homed given self.old }
    {
        if given.names_none() {
            self.at = Pt3 { x: 0, y: 0, z: 0 };
        } else {
            self.go(given);
        }
    }

    fn set(&mut self, given: Given)
        ensures { self.new ≡ counted_as given self.old }
    {
        if given.names_none() {
            self.at = Pt3 { x: 0, y: 0, z: 0 };
            self.e = 0;
        } else {
            self.go(given);
        }
    }
}

fn stays(from: Pt3, to: Pt3) -> bool
    ensures { result ≡ stays from to }
{
    from.x == to.x && from.y == to.y
}
