// The statements that the compiler makes of one source statement, masked where the context is secret.
#![tactic(auto)]

ghost use Rattle.std.specs.Prelude.{◌≡◌, true, [], ◌∷◌, ◌++◌, ◌+◌, ◌≤◌, ◌<◌, length};
ghost use Rattle.definitions.specs.Choice.{pick};
ghost use Rattle.definitions.specs.Image.{variable, unary, assign};
ghost use Rattle.definitions.specs.Reading.{read_expression};
ghost use Rattle.definitions.specs.Encoding.{word_with, expression_words, statement_words};
ghost use Rattle.definitions.specs.Compiling.{under};
ghost use Rattle.laws.specs.Parses.{ok, end_of};
ghost use Rattle.image_words.specs.Read.{ExpressionRead, PairRead, arguments_at};
ghost use Rattle.writer.specs.Writing.{SameBuffer, Wrote};
ghost use Rattle.masking.specs.Forms.{act_of, secret_context, Bounded, prefix, old_variable, selected_words, assigned, indexed, kept_cell};
ghost use Rattle.masking.specs.Forms.{stored, returned, conditioned, call_head, called};

use copying::Source;
use image_words::kinds::Kind;
use image_words::made::{
    AND_WORD, FALSE_WORD, NOT_WORD, RETURN_WORD, SELECT_WORD, TRUE_WORD, call_with, statement_with,
    word_with,
};
use image_words::ops::Op;
use writer::Output;

// What the act is made of: "the guard, T or E of the innermost secret arm, and LIVE if rc is secret". The context is secret if pc or rc is.
#[derive(Clone, Copy)]
pub struct Act {
    pub pc: bool,
    pub arm: u32,
    pub rc: bool,
    pub live: u32,
}

// A call: its procedure and whether that is guarded, the number of its values, the variable of its result, its temporary.
#[derive(Clone, Copy)]
pub struct Call {
    pub called: u32,
    pub guarded: bool,
    pub count: u32,
    pub result: u32,
    pub temporary: u32,
}

// What a statement is compiled with: the source that its expressions are copied from, and the act that it stands under.
#[derive(Clone, Copy)]
pub struct Masking<'a> {
    pub source: Source<'a>,
    pub act: Act,
    ghost bounded: { Bounded act },
}

fn variable_word(x: u32) -> u32
    requires { x ≤ 1000000 }
    ensures { result ≡ word_with 10 x }
{
    word_with(Kind::Variable as u32, x)
}

impl Act {
    // Whether the context is secret.
    pub fn is_secret(self) -> bool
        ensures { secret_context self ≡ result }
    {
        self.pc | self.rc
    }
}

impl Call {
    // The argument true for the guard of a guarded procedure.
    fn emit_true(self, out: &mut Output<'_>)
        ensures { Wrote out.old out.new (pick self.guarded (word_with 9 1 ∷ []) []) }
    {
        if self.guarded {
            out.put(TRUE_WORD);
        }
    }
}

impl Masking<'_> {
    // The act: the arm, LIVE, or both.
    fn emit_act(self, out: &mut Output<'_>)
        ensures { Wrote out.old out.new (expression_words (act_of self.entry.act)) }
    {
        let arm = variable_word(self.act.arm);
        let live = variable_word(self.act.live);
        match (self.act.pc, self.act.rc) {
            (true, true) => out.put_all(&[AND_WORD, arm, live]),
            (true, false) => out.put(arm),
            (false, _) => out.put(live),
        }
    }

    // In a secret context, the word of an operator and the act as its first operand.
    fn emit_prefix(self, head: u32, out: &mut Output<'_>)
        ensures { Wrote out.old out.new (prefix (secret_context self.entry.act) head (act_of self.entry.act)) }
    {
        if self.act.is_secret() {
            out.put(head);
            self.emit_act(out);
        }
    }

    // In a secret context, the variable that keeps its value where the act is false.
    fn emit_old_variable(self, y: u32, out: &mut Output<'_>)
        requires { y ≤ 1000000 }
        ensures { Wrote out.old out.new (old_variable (secret_context self.entry.act) y) }
    {
        if self.act.is_secret() {
            out.put(variable_word(y));
        }
    }

    // x := select(act, v, x) for a value of one word.
    fn emit_selected(self, x: u32, v: u32, out: &mut Output<'_>)
        requires { (x ≤ 1000000) }
        ensures { Wrote out.old out.new (selected_words x (act_of self.entry.act) v) }
    {
        out.put(statement_with(Op::Assign as u32, x));
        self.emit_select_act(out);
        out.put_all(&[v, variable_word(x)]);
    }

    // The word of a select and the act as its condition.
    fn emit_select_act(self, out: &mut Output<'_>)
        ensures { Wrote out.old out.new (word_with 14 0 ∷ expression_words (act_of self.entry.act)) }
    {
        out.put(SELECT_WORD);
        self.emit_act(out);
    }

    // E := not T, under the act where there is one. T is variable k and E the next one.
    fn emit_negation(self, k: u32, out: &mut Output<'_>)
        requires { (k < 1000000) }
        ensures { Wrote out.old out.new (statement_words (assign (k + 1) (under (secret_context self.entry.act) (act_of self.entry.act) (unary 0 0 (variable 0 k))))) }
    {
        out.put(statement_with(Op::Assign as u32, k + 1));
        self.emit_prefix(AND_WORD, out); // and(act, not T)
        out.put_all(&[NOT_WORD, variable_word(k)]);
    }

    // The act as the last argument of a call whose result goes to the temporary k, and then x := select(act, k, x).
    fn emit_call_tail(self, x: u32, k: u32, out: &mut Output<'_>)
        requires { (x ≤ 1000000) × (k ≤ 1000000) }
        ensures { Wrote out.old out.new (expression_words (act_of self.entry.act) ++ selected_words x (act_of self.entry.act) (word_with 10 k)) }
    {
        self.emit_act(out); // the last argument
        self.emit_selected(x, variable_word(k), out);
    }

    // ---- statements: each answers the place after what it read

    // y := select(act, value, y), or y := value in a public context.
    pub fn emit_assign(self, y: u32, at: usize, level: u32, out: &mut Output<'_>) -> usize
        requires { (y ≤ 1000000) × ExpressionRead level self.source.image.now at }
        ensures { ((result, (out.new.place, out.new.words.now)) ≡ assigned self.entry.source.first y self.entry.act out.old.place out.old.words.now (read_expression level self.entry.source.image.now at))
            × (at < result) × (result ≤ length self.entry.source.image.now) × SameBuffer out.old out.new }
    {
        out.put(statement_with(Op::Assign as u32, y));
        self.emit_prefix(SELECT_WORD, out); // select(act, value, y)
        let next = self.source.copy_expression(at, level, out);
        self.emit_old_variable(y, out);
        next
    }

    // A return: deferred in a secret context, where RV takes the value and LIVE, which follows it, becomes false.
    pub fn emit_return(self, rv: u32, at: usize, level: u32, out: &mut Output<'_>) -> usize
        requires { (rv < 1000000) × ExpressionRead level self.source.image.now at }
        ensures { ((result, (out.new.place, out.new.words.now)) ≡ returned self.entry.source.first rv self.entry.act out.old.place out.old.words.now (read_expression level self.entry.source.image.now at))
            × (at < result) × (result ≤ length self.entry.source.image.now) × SameBuffer out.old out.new }
    {
        if self.act.is_secret() {
            let next = self.emit_assign(rv, at, level, out);
            self.emit_selected(rv + 1, FALSE_WORD, out);
            return next;
        }
        out.put(RETURN_WORD);
        self.source.copy_expression(at, level, out)
    }

    // The word of a store and its index.
    fn emit_store_index(self, a: u32, at: usize, level: u32, out: &mut Output<'_>) -> usize
        requires { (a < 65536) × ExpressionRead level self.source.image.now at }
        ensures { ((result, (out.new.place, out.new.words.now)) ≡ indexed self.entry.source.first a out.old.place out.old.words.now (read_expression level self.entry.source.image.now at))
            × (at < result) × (result ≤ length self.entry.source.image.now) × SameBuffer out.old out.new }
    {
        out.put(statement_with(Op::Store as u32, a));
        self.source.copy_expression(at, level, out)
    }

    // In a secret context, the cell that keeps its value where the act is false; its index is copied once more.
    fn emit_old_cell(self, a: u32, at: usize, level: u32, out: &mut Output<'_>)
        requires { (a < 65536) × ExpressionRead level self.source.image.now at }
        ensures { ((out.new.place, out.new.words.now) ≡ kept_cell (secret_context self.entry.act) self.entry.source.first a out.old.place out.old.words.now (read_expression level self.entry.source.image.now at)) × SameBuffer out.old out.new }
    {
        if self.act.is_secret() {
            out.put(word_with(Kind::Cell as u32, a));
            self.source.copy_expression(at, level, out);
        }
    }

    // A store: in a secret context it writes the old cell where the act is false.
    pub fn emit_store(self, a: u32, at: usize, level: u32, out: &mut Output<'_>) -> usize
        requires { (a < 65536) × PairRead level self.source.image.now at }
        ensures { ((result, (out.new.place, out.new.words.now)) ≡ stored self.entry.source.first a self.entry.act out.old.place out.old.words.now (read_expression level self.entry.source.image.now at)
            (read_expression level self.entry.source.image.now (end_of (read_expression level self.entry.source.image.now at))))
            × (at < result) × (result ≤ length self.entry.source.image.now) × SameBuffer out.old out.new }
    {
        let value = self.emit_store_index(a, at, level, out);
        self.emit_prefix(SELECT_WORD, out); // select(act, value, old cell)
        let next = self.source.copy_expression(value, level, out);
        self.emit_old_cell(a, at, level, out);
        next
    }

    // T := condition and E := not T, each under the act where there is one. T is variable k and E the next one.
    pub fn emit_condition(self, k: u32, at: usize, level: u32, out: &mut Output<'_>) -> usize
        requires { (k < 1000000) × ExpressionRead level self.source.image.now at }
        ensures { ((result, (out.new.place, out.new.words.now)) ≡ conditioned self.entry.source.first k self.entry.act out.old.place out.old.words.now (read_expression level self.entry.source.image.now at))
            × (at < result) × (result ≤ length self.entry.source.image.now) × SameBuffer out.old out.new }
    {
        out.put(statement_with(Op::Assign as u32, k));
        self.emit_prefix(AND_WORD, out); // and(act, condition)
        let next = self.source.copy_expression(at, level, out);
        self.emit_negation(k, out);
        next
    }

    // The word of a call, whose result goes to x, and its source's values.
    fn emit_call_head(
        self,
        x: u32,
        call: Call,
        at: usize,
        level: u32,
        out: &mut Output<'_>,
    ) -> usize
        requires { (call.called < 256) × (x ≤ 1000000) × (at ≤ length self.source.image.now) × (ok (arguments_at call.count level self.source.image.now at) ≡ true) }
        ensures { ((result, (out.new.place, out.new.words.now)) ≡ call_head self.entry.source.first call.called x out.old.place out.old.words.now (arguments_at call.count level self.entry.source.image.now at))
            × (at ≤ result) × (result ≤ length self.entry.source.image.now) × SameBuffer out.old out.new }
    {
        out.put(call_with(call.called, x));
        self.source.copy_arguments(at, call.count, level, out)
    }

    // A call: in a secret context through its temporary, under the act.
    pub fn emit_call(self, call: Call, at: usize, level: u32, out: &mut Output<'_>) -> usize
        requires { (call.called < 256) × (call.result ≤ 1000000) × (call.temporary ≤ 1000000) × (at ≤ length self.source.image.now)
            × (ok (arguments_at call.count level self.source.image.now at) ≡ true) }
        ensures { ((result, (out.new.place, out.new.words.now)) ≡ called self.entry.source.first call self.entry.act out.old.place out.old.words.now (arguments_at call.count level self.entry.source.image.now at))
            × (at ≤ result) × (result ≤ length self.entry.source.image.now) × SameBuffer out.old out.new }
    {
        if self.act.is_secret() {
            let next = self.emit_call_head(call.temporary, call, at, level, out);
            self.emit_call_tail(call.result, call.temporary, out);
            return next;
        }
        let next = self.emit_call_head(call.result, call, at, level, out);
        call.emit_true(out);
        next
    }
}
