// The compiled words of statements and blocks, written from the words of the source.
#![tactic(auto)]

ghost use Rattle.std.specs.Prelude.{◌≡◌, true, false, ◌+◌, ◌-◌, ◌≤◌, ◌<◌, length, get_or};
ghost use Rattle.definitions.specs.Choice.{pick};
ghost use Rattle.definitions.specs.Image.{op_of};
ghost use Rattle.definitions.specs.Compiling.{renamed};
ghost use Rattle.definitions.specs.Reading.{read_expression, read_statement, read_block};
ghost use Rattle.laws.specs.Parses.{end_of};
ghost use Rattle.laws.specs.ImageIn.{procedures_in};
ghost use Rattle.image_words.specs.Read.{ExpressionRead, PairRead, StatementRead, BlockRead};
ghost use Rattle.tables.specs.Table.{arrays_in, params_in};
ghost use Rattle.contexts.specs.Context.{seen, passed_block};
ghost use Rattle.writer.specs.Writing.{SameBuffer};
ghost use Rattle.masking.specs.Forms.{Bounded, conditioned};
ghost use Rattle.emission.specs.Emitted.{act_at, temporary_at, if_head, for_head, StatementAt, OpIs, BlockAt, StatementDone, BlockDone, BodyDone};

use contexts::{Body, Context, rc_block, secret_expression};
use copying::Source;
use image_words::made::{IF_WORD, block_with, statement_with};
use image_words::ops::{self, Op};
use image_words::{called, payload, result, target, type_sort};
use masking::{Act, Call, Masking};
use operators::WORD;
use tables::programs::Procedure;
use writer::Output;

// Where a walk is: whether pc is secret, the variable of the innermost secret arm or the guard, the first variable that moves, RV, which
// LIVE follows, T of the next level, which E follows, and the temporaries for results of calls.
#[derive(Clone, Copy)]
pub struct Scope {
    pub pc: bool,
    pub arm: u32,
    pub first: u32,
    pub rv: u32,
    pub pair: u32,
    pub word: u32,
    pub boolean: u32,
}

// How far a walk has come: the place in the source, the statements of the block so far, rc.
#[derive(Clone, Copy)]
pub struct Cursor {
    pub at: usize,
    pub n: u32,
    pub rc: bool,
}

// A walk over the body of a procedure, or over a part of it.
#[derive(Clone, Copy)]
pub struct Walk<'a> {
    pub procedure: Procedure<'a>,
    pub scope: Scope,
}

impl Scope {
    // The act under which a statement stands.
    fn act_at(self, cursor: Cursor) -> Act
        requires { (self.arm ≤ 100000) × (self.rv ≤ 1000) }
        ensures { (result ≡ act_at self cursor) × Bounded result }
    {
        Act {
            pc: self.pc,
            arm: self.arm,
            rc: cursor.rc,
            live: self.rv + 1,
        }
    }

    // The temporary for a result of a sort.
    fn temporary_for(self, sort: u32) -> u32
        requires { (self.word ≤ 1000) × (self.boolean ≤ 1000) }
        ensures { (result ≡ temporary_at self sort) × (result ≤ 1000) }
    {
        if sort == WORD {
            self.word
        } else {
            self.boolean
        }
    }
}

// The number of statements that a return or a call becomes.
fn statements_of(secret: bool) -> u32
    ensures { (result ≡ pick secret 2 1) × (result ≤ 2) }
{
    if secret { 2 } else { 1 }
}

impl<'a> Walk<'a> {
    // What expressions are copied from.
    fn source(self) -> Source<'a>
        ensures image { result.image.now ≡ self.entry.procedure.program.image.now }
        ensures first { result.first ≡ self.entry.scope.first }
    {
        Source {
            image: self.procedure.program.image,
            first: self.scope.first,
        }
    }

    // A variable's number in the compiled procedure.
    fn renumber(self, x: u32) -> u32
        requires { x < 268435456 }
        ensures { (result ≡ renamed self.entry.scope.first x) × (result ≤ x + 1) }
    {
        self.source().renumber(x)
    }

    // What the statement at a cursor is compiled with.
    fn masking(self, cursor: Cursor) -> Masking<'a>
        requires { (self.scope.arm ≤ 100000) × (self.scope.rv ≤ 1000) }
        ensures act { result.act ≡ act_at self.entry.scope cursor }
        ensures image { result.source.image.now ≡ self.entry.procedure.program.image.now }
        ensures first { result.source.first ≡ self.entry.scope.first }
    {
        Masking {
            source: self.source(),
            act: self.scope.act_at(cursor),
        }
    }

    // An assignment.
    fn emit_assign(self, cursor: Cursor, level: u32, out: &mut Output<'_>) -> Cursor
        requires { StatementAt self level cursor × OpIs self cursor 0 }
        ensures { StatementDone self.entry level cursor out.old out.new result }
    {
        let y = self.renumber(target(self.procedure.program.image[cursor.at]));
        let at = self
            .masking(cursor)
            .emit_assign(y, cursor.at + 1, level - 1, out);
        Cursor {
            at,
            n: cursor.n + 1,
            ..cursor
        }
    }

    // A store.
    fn emit_store(self, cursor: Cursor, level: u32, out: &mut Output<'_>) -> Cursor
        requires { StatementAt self level cursor × OpIs self cursor 1 }
        ensures { StatementDone self.entry level cursor out.old out.new result }
    {
        let a = target(self.procedure.program.image[cursor.at]);
        let at = self
            .masking(cursor)
            .emit_store(a, cursor.at + 1, level - 1, out);
        Cursor {
            at,
            n: cursor.n + 1,
            ..cursor
        }
    }

    // A return: rc is secret behind it if it is deferred.
    fn emit_return(self, cursor: Cursor, level: u32, out: &mut Output<'_>) -> Cursor
        requires { StatementAt self level cursor × OpIs self cursor 4 }
        ensures { StatementDone self.entry level cursor out.old out.new result }
    {
        let at = self
            .masking(cursor)
            .emit_return(self.scope.rv, cursor.at + 1, level - 1, out);
        let secret = self.scope.pc | cursor.rc;
        Cursor {
            at,
            n: cursor.n + statements_of(secret),
            rc: secret,
        }
    }

    // A call.
    fn emit_call(self, cursor: Cursor, level: u32, out: &mut Output<'_>) -> Cursor
        requires { StatementAt self level cursor × OpIs self cursor 5 }
        ensures { StatementDone self.entry level cursor out.old out.new result }
    {
        let program = self.procedure.program;
        let word = self.procedure.program.image[cursor.at];
        let f = called(word);
        let call = Call {
            called: f,
            guarded: program.is_guarded(f),
            count: program.parameters(f),
            result: self.renumber(result(word)),
            temporary: self.scope.temporary_for(type_sort(program.result_type(f))),
        };
        let at = self
            .masking(cursor)
            .emit_call(call, cursor.at + 1, level - 1, out);
        Cursor {
            at,
            n: cursor.n + statements_of(self.scope.pc | cursor.rc),
            ..cursor
        }
    }

    // The statements that set T and E of a secret if, by the condition behind its word; answers the place after the condition.
    fn emit_secret_if_head(self, cursor: Cursor, level: u32, out: &mut Output<'_>) -> usize
        requires { ExpressionRead level self.procedure.program.image.now (cursor.at + 1) × (self.scope.arm ≤ 100000) × (self.scope.rv ≤ 1000)
            × (self.scope.pair < 1000000) }
        ensures { ((result, (out.new.place, out.new.words.now)) ≡ conditioned self.entry.scope.first self.entry.scope.pair (act_at self.entry.scope cursor)
            out.old.place out.old.words.now (read_expression level self.entry.procedure.program.image.now (cursor.at + 1)))
            × (cursor.at + 1 < result) × (result ≤ length self.entry.procedure.program.image.now) × SameBuffer out.old out.new }
    {
        self.masking(cursor)
            .emit_condition(self.scope.pair, cursor.at + 1, level, out)
    }

    // The word of a public if and its condition; answers the place after them.
    fn emit_if_head(self, at: usize, level: u32, out: &mut Output<'_>) -> usize
        requires { ExpressionRead level self.procedure.program.image.now at }
        ensures { ((result, (out.new.place, out.new.words.now)) ≡ if_head self.entry.scope.first out.old.place out.old.words.now (read_expression level self.entry.procedure.program.image.now at))
            × (at < result) × (result ≤ length self.entry.procedure.program.image.now) × SameBuffer out.old out.new }
    {
        out.put(IF_WORD);
        self.source().copy_expression(at, level, out)
    }

    // The word of a for over variable y and its bounds; answers the place after them.
    fn emit_for_head(self, y: u32, at: usize, level: u32, out: &mut Output<'_>) -> usize
        requires { (y ≤ 1000000) × PairRead level self.procedure.program.image.now at }
        ensures { ((result, (out.new.place, out.new.words.now)) ≡ for_head self.entry.scope.first y out.old.place out.old.words.now (read_expression level self.entry.procedure.program.image.now at)
            (read_expression level self.entry.procedure.program.image.now (end_of (read_expression level self.entry.procedure.program.image.now at))))
            × (at < result) × (result ≤ length self.entry.procedure.program.image.now) × SameBuffer out.old out.new }
    {
        out.put(statement_with(Op::For as u32, y));
        self.source().copy_two(at, level, out)
    }

    // Whether the condition at a place is secret.
    fn is_secret_condition(self, at: usize, level: u32) -> bool
        requires { ExpressionRead level self.procedure.program.image.now at }
        ensures { (seen self.entry.procedure.types.now (arrays_in self.entry.procedure.program.table.now) (read_expression level self.entry.procedure.program.image.now at)).secret ≡ result }
    {
        secret_expression(Body::of(self.procedure), at, level).secret
    }

    // The rc after one pass of the body of a for, begun with the rc before the for.
    fn rc_after_pass(self, rc: bool, at: usize, level: u32) -> bool
        requires { BlockRead level (params_in self.procedure.program.table.now) self.procedure.me self.procedure.program.image.now at }
        ensures { result ≡ (passed_block self.entry.procedure.types.now (arrays_in self.entry.procedure.program.table.now) self.entry.scope.pc rc
            (read_block level (params_in self.entry.procedure.program.table.now) self.entry.procedure.me self.entry.procedure.program.image.now at)).rc }
    {
        let context = Context {
            pc: self.scope.pc,
            rc,
        };
        rc_block(Body::of(self.procedure), context, at, level).rc
    }

    // A statement.
    #[tactic(auto, using(image_words::specs::StatementParts::op_there))]
    #[cycle(statements)]
    fn emit_statement(self, cursor: Cursor, level: u32, out: &mut Output<'_>) -> Cursor
        requires { StatementAt self level cursor }
        ensures { StatementDone self.entry level cursor out.old out.new result }
    {
        match ops::of(self.procedure.program.image[cursor.at]) {
            Op::Assign => self.emit_assign(cursor, level, out),
            Op::Store => self.emit_store(cursor, level, out),
            Op::If => self.emit_if(cursor, level, out),
            Op::For => self.emit_for(cursor, level, out),
            Op::Return => self.emit_return(cursor, level, out),
            Op::Call => self.emit_call(cursor, level, out),
        }
    }

    // An if, by the label of its condition.
    #[cycle(statements)]
    fn emit_if(self, cursor: Cursor, level: u32, out: &mut Output<'_>) -> Cursor
        requires { StatementAt self level cursor × OpIs self cursor 2 }
        ensures { StatementDone self.entry level cursor out.old out.new result }
    {
        if self.is_secret_condition(cursor.at + 1, level - 1) {
            return self.emit_secret_if(cursor, level, out);
        }
        self.emit_public_if(cursor, level, out)
    }

    // A secret if: T and E are the pair of its level, and the arms follow in line.
    #[cycle(statements)]
    fn emit_secret_if(self, cursor: Cursor, level: u32, out: &mut Output<'_>) -> Cursor
        requires { StatementAt self level cursor × OpIs self cursor 2
            × ((seen self.procedure.types.now (arrays_in self.procedure.program.table.now) (read_expression (level - 1) self.procedure.program.image.now (cursor.at + 1))).secret ≡ true) }
        ensures { StatementDone self.entry level cursor out.old out.new result }
    {
        let t = self.scope.pair;
        let next = t + 2; // T of the next level
        let at = self.emit_secret_if_head(cursor, level - 1, out);
        let behind = Cursor {
            at,
            n: cursor.n + 2,
            ..cursor
        };
        let first_arm = Walk {
            procedure: self.procedure,
            scope: Scope {
                pc: true,
                arm: t,
                pair: next,
                ..self.scope
            },
        };
        let x = first_arm.emit_block(behind, level - 1, out);
        let between = Cursor { rc: cursor.rc, ..x };
        let second_arm = Walk {
            procedure: self.procedure,
            scope: Scope {
                pc: true,
                arm: t + 1,
                pair: next,
                ..self.scope
            },
        };
        let y = second_arm.emit_block(between, level - 1, out);
        Cursor {
            rc: x.rc | y.rc,
            ..y
        }
    }

    // A public if keeps its form.
    #[cycle(statements)]
    fn emit_public_if(self, cursor: Cursor, level: u32, out: &mut Output<'_>) -> Cursor
        requires { StatementAt self level cursor × OpIs self cursor 2
            × ((seen self.procedure.types.now (arrays_in self.procedure.program.table.now) (read_expression (level - 1) self.procedure.program.image.now (cursor.at + 1))).secret ≡ false) }
        ensures { StatementDone self.entry level cursor out.old out.new result }
    {
        let at = self.emit_if_head(cursor.at + 1, level - 1, out);
        let behind = Cursor { at, n: 0, ..cursor };
        let x = self.emit_body(behind, level - 1, out);
        let between = Cursor {
            n: 0,
            rc: cursor.rc,
            ..x
        };
        let y = self.emit_body(between, level - 1, out);
        Cursor {
            at: y.at,
            n: cursor.n + 1,
            rc: x.rc | y.rc,
        }
    }

    // A for keeps its form; its body begins with the rc that it ends with when begun from the rc before it.
    #[cycle(statements)]
    fn emit_for(self, cursor: Cursor, level: u32, out: &mut Output<'_>) -> Cursor
        requires { StatementAt self level cursor × OpIs self cursor 3 }
        ensures { StatementDone self.entry level cursor out.old out.new result }
    {
        let variable = self.renumber(target(self.procedure.program.image[cursor.at]));
        let at = self.emit_for_head(variable, cursor.at + 1, level - 1, out);
        let rc = self.rc_after_pass(cursor.rc, at, level - 1);
        let behind = Cursor { at, n: 0, rc };
        let b = self.emit_body(behind, level - 1, out);
        Cursor {
            at: b.at,
            n: cursor.n + 1,
            rc,
        }
    }

    // A block with its own count, which is written once it is known.
    #[cycle(statements)]
    fn emit_body(self, cursor: Cursor, level: u32, out: &mut Output<'_>) -> Cursor
        requires { BlockAt self level cursor }
        ensures { BodyDone self.entry level cursor out.old out.new result }
    {
        let place = out.place;
        out.put(0);
        let inside = Cursor { n: 0, ..cursor };
        let end = self.emit_block(inside, level, out);
        out.patch(place, block_with(end.n));
        end
    }

    // The statements of a block, in line with those before them.
    #[cycle(statements)]
    pub fn emit_block(self, cursor: Cursor, level: u32, out: &mut Output<'_>) -> Cursor
        requires { BlockAt self level cursor }
        ensures { BlockDone self.entry level cursor out.old out.new result }
    {
        let count = payload(self.procedure.program.image[cursor.at]);
        let mut next = Cursor {
            at: cursor.at + 1,
            ..cursor
        };
        for _ in 0..count {
            next = self.emit_statement(next, level - 1, out);
        }
        next
    }
}
