//! What is left of the tokens, and the first fault.

ghost use Rattle.std.specs.Prelude.{◌≡◌, ◌<◌, ◌++◌, ◌∷◌, [], IfSome, option_map, is_some, true, Ok, Err};
ghost use Rattle.scad_ast.specs.View.{expression_of};
ghost use Rattle.scad_grammar.specs.Tokens.{is_sign, is_key, word_of};
ghost use Rattle.scad_grammar.specs.Grammar.{ends_arguments};
ghost use Rattle.scad_grammar.specs.Machine.{syntax_at};
ghost use Rattle.scad_grammar.specs.Reads.{behind_sign};
ghost use Rattle.scad_parse.specs.Reading.{place_of, no_value, comma_or, name_before};
ghost use Rattle.scad_parse.specs.Standing.{Reads, standing, failed, passed, front_of, stands_at, lacks, more_to_come};
ghost use Rattle.scad_parse.specs.Standing.{Opens, Within, Kept};
ghost use Rattle.scad_parse.specs.Standing.{nothing_read, took, took_at, needed, left_out, word_here, literal_here};

use crate::fault::{Fault, Form};
use crate::front::{
    behind, ends_arguments, first_word, is_key, is_named, is_sign, is_word, place, word,
};
use crate::operator::literal;
use scad_ast::Expr;
use scad_fault::{Place, Text};
use scad_lex::{Key, Sign, Token};
use std::alloc::Global;

/// What is left of the tokens, and the first fault in them. Behind a fault nothing more is read, and the trees that the
/// rules give are of no meaning.
#[derive(Drop)]
pub(crate) struct Reader<'p> {
    pub(crate) alloc: Global,
    pub(crate) left: &'p [Token],
    pub(crate) end: Place,
    pub(crate) fault: Option<Fault>,
}

/// A construct that is open: where it begins, and how many more may open inside of it.
#[derive(Clone, Copy)]
pub(crate) struct Open {
    pub(crate) at: Place,
    pub(crate) room: u32,
}

/// A word, and where it stands.
#[derive(Drop)]
pub(crate) struct Word {
    pub(crate) at: Place,
    pub(crate) name: Text,
}

impl<'p> Reader<'p> {
    /// The first fault is remembered.
    pub(crate) fn fails(&mut self, fault: Fault)
        ensures end { self.new.end ≡ self.old.end }
        ensures now { standing self.new ≡ failed fault (standing self.old) }
    {
        match self.fault {
            None => self.fault = Some(fault),
            Some(_) => {}
        }
    }

    /// The token at the front is refused, or what is behind the text.
    pub(crate) fn refuse(&mut self)
        ensures { Reads (λ e ts. Err (syntax_at (place_of e ts))) self.old self.new no_value }
    {
        self.fails(Fault::Syntax(place(self.left, self.end)));
    }

    /// The token at the front.
    pub(crate) fn front(&self) -> Option<&'p Token>
        ensures { option_map (λ t. t.now) result ≡ front_of (standing self.now) }
    {
        match self.fault {
            None => {
                match self.left {
                    [] => None,
                    [token, ..] => Some(token),
                }
            }
            Some(_) => None,
        }
    }

    /// The token at the front is read.
    pub(crate) fn pass(&mut self)
        ensures end { self.new.end ≡ self.old.end }
        ensures now { standing self.new ≡ passed (standing self.old) }
    {
        self.left = behind(self.left);
    }

    /// This sign stands at the front.
    pub(crate) fn begins_with(&self, sign: Sign) -> bool
        ensures { result ≡ stands_at (is_sign sign) (standing self.now) }
    {
        match self.front() {
            Some(token) => is_sign(sign, token),
            None => false,
        }
    }

    /// This keyword stands at the front.
    pub(crate) fn begins_with_key(&self, key: Key) -> bool
        ensures { result ≡ stands_at (is_key key) (standing self.now) }
    {
        match self.front() {
            Some(token) => is_key(key, token),
            None => false,
        }
    }

    /// A word stands at the front.
    pub(crate) fn begins_with_word(&self) -> bool
        ensures { result ≡ stands_at (λ t. is_some (word_of t)) (standing self.now) }
    {
        match self.front() {
            Some(token) => is_word(token),
            None => false,
        }
    }

    /// Something else than this sign is to be read.
    pub(crate) fn lacks(&self, sign: Sign) -> bool
        ensures { result ≡ lacks (is_sign sign) (standing self.now) }
    {
        self.fault.is_none() && !self.begins_with(sign)
    }

    /// An end of arguments stands at the front.
    fn begins_with_end_of_arguments(&self) -> bool
        ensures { result ≡ stands_at ends_arguments (standing self.now) }
    {
        match self.front() {
            Some(token) => ends_arguments(token),
            None => false,
        }
    }

    /// An argument is to be read.
    pub(crate) fn lacks_end_of_arguments(&self) -> bool
        ensures { result ≡ lacks ends_arguments (standing self.now) }
    {
        self.fault.is_none() && !self.begins_with_end_of_arguments()
    }

    /// Tokens are left.
    pub(crate) fn has_more(&self) -> bool
        ensures { result ≡ more_to_come (standing self.now) }
    {
        match self.front() {
            Some(_) => true,
            None => false,
        }
    }

    /// The sign, which is to come.
    pub(crate) fn expect(&mut self, sign: Sign)
        ensures { Reads (λ e ts. behind_sign e sign ts (λ us. Ok (no_value, us))) self.old self.new no_value }
    {
        if self.begins_with(sign) {
            self.pass();
        } else {
            self.refuse();
        }
    }

    /// The sign, which is to come and is still to be read.
    pub(crate) fn needs(&mut self, sign: Sign)
        ensures { Reads (λ e ts. needed (is_sign sign) e ts) self.old self.new no_value }
    {
        if !self.begins_with(sign) {
            self.refuse();
        }
    }

    /// An end of arguments, which is to come and is still to be read.
    fn needs_end_of_arguments(&mut self)
        ensures { Reads (λ e ts. needed ends_arguments e ts) self.old self.new no_value }
    {
        if !self.begins_with_end_of_arguments() {
            self.refuse();
        }
    }

    /// Whether the sign comes; then it is read.
    pub(crate) fn takes(&mut self, sign: Sign) -> bool
        ensures { Reads (λ e ts. took (is_sign sign) ts) self.old self.new result }
    {
        let here = self.begins_with(sign);
        if here {
            self.pass();
        }
        here
    }

    /// The place of the keyword, where it comes; then it is read.
    pub(crate) fn takes_key(&mut self, key: Key) -> Option<Place>
        ensures { Reads (λ e ts. took_at (is_key key) ts) self.old self.new result }
    {
        if !self.begins_with_key(key) {
            return None;
        }
        let at = place(self.left, self.end);
        self.pass();
        Some(at)
    }

    /// A form that is left out is refused where its keyword comes.
    pub(crate) fn leaves_out(&mut self, key: Key, form: Form)
        ensures { Reads (λ e ts. left_out (is_key key) form ts) self.old self.new no_value }
    {
        if self.begins_with_key(key) {
            self.fails(Fault::LeftOut(place(self.left, self.end), form));
        }
    }

    /// A form that is left out is refused where its sign comes.
    pub(crate) fn leaves_out_sign(&mut self, sign: Sign, form: Form)
        ensures { Reads (λ e ts. left_out (is_sign sign) form ts) self.old self.new no_value }
    {
        if self.begins_with(sign) {
            self.fails(Fault::LeftOut(place(self.left, self.end), form));
        }
    }

    /// How many more constructs may open inside of one that begins at this place.
    pub(crate) fn deeper(&mut self, at: Place, room: u32) -> Option<u32>
        ensures within { Within room at self.old self.new result }
        ensures less { IfSome result (λ inner. inner < room) }
    {
        if room == 0 {
            self.fails(Fault::Nesting(at));
            return None;
        }
        Some(room - 1)
    }

    /// The construct that the token at the front opens, where there is room.
    pub(crate) fn open(&mut self, room: u32) -> Option<Open>
        ensures opens { Opens (λ t. true) room self.old self.new result }
        ensures less { IfSome result (λ inner. inner.room < room) }
    {
        let Some(token) = self.front() else {
            return None;
        };
        let at = token.at;
        if room == 0 {
            self.fails(Fault::Nesting(at));
            return None;
        }
        self.pass();
        Some(Open { at, room: room - 1 })
    }

    /// The construct that this sign opens, where it comes and there is room.
    pub(crate) fn opens(&mut self, sign: Sign, room: u32) -> Option<Open>
        ensures opens { Opens (is_sign sign) room self.old self.new result }
        ensures less { IfSome result (λ inner. inner.room < room) }
    {
        if !self.begins_with(sign) {
            return None;
        }
        self.open(room)
    }

    /// The construct that this keyword opens, where it comes and there is room.
    pub(crate) fn opens_key(&mut self, key: Key, room: u32) -> Option<Open>
        ensures opens { Opens (is_key key) room self.old self.new result }
        ensures less { IfSome result (λ inner. inner.room < room) }
    {
        if !self.begins_with_key(key) {
            return None;
        }
        self.open(room)
    }

    /// The word, which is to come.
    pub(crate) fn word(&mut self) -> Word
        ensures { Reads word_here self.old self.new (result.at, result.name) }
    {
        let at = place(self.left, self.end);
        let name = match self.front() {
            Some(token) => word(self.alloc, token),
            None => Ok(None),
        };
        match name {
            Ok(Some(name)) => {
                self.pass();
                Word { at, name }
            }
            Ok(None) => {
                self.refuse();
                Word {
                    at,
                    name: Text::empty(self.alloc),
                }
            }
            Err(_) => {
                self.fails(Fault::Memory);
                Word {
                    at,
                    name: Text::empty(self.alloc),
                }
            }
        }
    }

    /// The name before an argument, where one comes; then it is read with its `=`.
    pub(crate) fn argument_name(&mut self) -> Option<Text>
        ensures { Reads (λ e ts. name_before ts) self.old self.new result }
    {
        if !is_named(self.left) {
            return None;
        }
        let name = first_word(self.alloc, self.left);
        self.left = behind(behind(self.left));
        match name {
            Ok(name) => name,
            Err(_) => {
                self.fails(Fault::Memory);
                None
            }
        }
    }

    /// The number, string or constant, where one comes; then it is read.
    pub(crate) fn literal(&mut self) -> Option<Expr>
        ensures { Reads (λ e ts. literal_here ts) self.old self.new (option_map expression_of result) }
    {
        let found = match self.front() {
            Some(token) => literal(self.alloc, token),
            None => Ok(None),
        };
        match found {
            Ok(Some(value)) => {
                self.pass();
                Some(value)
            }
            Ok(None) => None,
            Err(_) => {
                self.fails(Fault::Memory);
                None
            }
        }
    }

    /// What stands behind an argument: a `,`, which is read, or an end of arguments, which stays.
    pub(crate) fn behind_argument(&mut self)
        ensures { Reads (λ e ts. comma_or ends_arguments e no_value ts) self.old self.new no_value }
    {
        if self.takes(Sign::Comma) {
            return;
        }
        self.needs_end_of_arguments();
    }

    /// What stands behind a member of a list up to a sign: a `,`, which is read, or the sign, which stays.
    pub(crate) fn behind_member(&mut self, sign: Sign)
        ensures { Reads (λ e ts. comma_or (is_sign sign) e no_value ts) self.old self.new no_value }
    {
        if self.takes(Sign::Comma) {
            return;
        }
        self.needs(sign);
    }

    /// One more member of a list.
    pub(crate) fn push<T: Drop>(&mut self, all: &mut Vec<T>, member: T)
        ensures { Reads (nothing_read (all.old.items ++ (member ∷ []))) self.old self.new all.new.items }
    {
        match all.push(member) {
            Ok(()) => {}
            Err(_) => self.fails(Fault::Memory),
        }
    }

    /// Room in a list for one more member, and no more than that.
    pub(crate) fn reserve_one<T: Drop>(&mut self, all: &mut Vec<T>)
        ensures { Reads (nothing_read all.old.items) self.old self.new all.new.items }
    {
        match all.reserve_exact(1) {
            Ok(()) => {}
            Err(_) => self.fails(Fault::Memory),
        }
    }

    /// One more member of a list that mostly has no other, so the first takes memory for itself alone.
    pub(crate) fn push_lone<T: Drop>(&mut self, all: &mut Vec<T>, member: T)
        ensures { Reads (nothing_read (all.old.items ++ (member ∷ []))) self.old self.new all.new.items }
    {
        if all.is_empty() {
            self.reserve_one(all);
        }
        self.push(all, member);
    }

    /// The tree in a box, where there is memory for it.
    pub(crate) fn boxed<T: Drop>(&mut self, tree: T) -> Option<Box<T>>
        ensures kept { Kept result self.old self.new }
        ensures tree { IfSome result (λ kept. kept.value ≡ tree) }
    {
        match Box::new(self.alloc, tree) {
            Ok(kept) => Some(kept),
            Err(_) => {
                self.fails(Fault::Memory);
                None
            }
        }
    }
}
