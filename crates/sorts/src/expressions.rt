// The sort of an expression, and the lowest of its faults.
ghost use Rattle.std.specs.Prelude.{◌≡◌, leb, eqb, get_or, length};
ghost use Rattle.definitions.specs.Image.{kind_of};
ghost use Rattle.definitions.specs.Reading.{read_expression};
ghost use Rattle.definitions.specs.Faults.{least, fault_if};
ghost use Rattle.definitions.specs.Sorts.{sort_of, wrong_sort};
ghost use Rattle.image_words.specs.Read.{ExpressionRead};
ghost use Rattle.tables.specs.Table.{array_count_in};
ghost use Rattle.definitions.specs.Image.{type_sort};
ghost use Rattle.operators.specs.Numbers.{sort_number};
ghost use Rattle.sorts.specs.Numbers.{number_of};
ghost use Rattle.sorts.specs.Walk.{view, expression_walked, operand_walked};

use super::mark_table::{Mark, Marks};
use super::{Scope, WalkedExpression, Words};
use definitions::Fault;
use image_words::kinds::Kind;
use image_words::lists::wide;
use image_words::{kinds, payload, type_sort};
use operators::unary::UnaryOperator;
use operators::{Operator, Sort};
use reasons::Reason;
use tables::array_count;

// A variable's sort; what names no variable has none.
#[tactic(auto, using(crate::proofs::LeafRules::sort_known, crate::proofs::LeafRules::sort_unknown))]
pub fn variable_sort(types: &[u32], x: u32) -> Option<Sort>
    ensures { number_of result ≡ sort_of types.now x }
{
    types.get(x as usize).map(|&w| sort_in(w))
}

// The sort in a type word.
pub fn sort_in(w: u32) -> Sort
    ensures { sort_number result ≡ type_sort w }
{
    match type_sort(w) {
        0 => Sort::Word,
        _ => Sort::Boolean,
    }
}

// A variable or array that is named by a number: there are `count` of them.
pub fn note_missing(best: Fault, count: usize, x: u32, at: usize) -> Fault
    ensures { result ≡ least best (fault_if (leb count x) 6 at) }
{
    faults::note(best, count <= wide(x), Reason::NoSuchName.number(), at)
}

// A sort that is wanted where another is.
pub fn note_wrong_sort(best: Fault, want: Option<Sort>, have: Option<Sort>, place: usize) -> Fault
    ensures { result ≡ least best (wrong_sort (number_of want) (number_of have) place) }
{
    let broken = want.is_some() & (have.is_some() & (want != have));
    faults::note(best, broken, Reason::WrongSort.number(), place)
}

// The walk over a procedure's body, with what the fors make of its variables at the place that is reached.
#[derive(Clone, Copy)]
pub struct Walk<'a> {
    pub words: Words<'a>,
    pub scope: Scope,
    pub marks: &'a Marks,
}

impl Walk<'_> {
    // A read of a variable: there has to be one, and a loop variable is read only inside its blocks.
    fn note_read(self, x: u32, at: usize, best: Fault) -> Fault
        ensures { result ≡ least (least best (fault_if (leb (length self.entry.words.types.now) x) 6 at)) (fault_if (eqb (get_or self.entry.marks.now x 0) 1) 8 at) }
    {
        let named = note_missing(best, self.words.types.len(), x, at);
        let outside = self.marks.get(x) == Mark::Outside;
        faults::note(named, outside, Reason::LoopVariable.number(), at)
    }

    // An operand that has to have a sort: the expression, then whether its sort is the one that is wanted.
    #[cycle(operands)]
    #[tactic(auto, using(crate::proofs::ExpressionRules::operand_returns))]
    pub fn check_operand(
        self,
        want: Option<Sort>,
        at: usize,
        level: u32,
        best: Fault,
    ) -> WalkedExpression
        requires { ExpressionRead level self.words.image.now at }
        ensures { view result ≡ operand_walked self.entry.words.types.now (array_count_in self.entry.words.table.now) self.entry.marks.now (number_of want) best
            (read_expression level self.entry.words.image.now at) }
    {
        let e = self.check_expression(at, level, best);
        WalkedExpression {
            best: note_wrong_sort(e.best, want, e.sort, at),
            ..e
        }
    }

    // An expression, by its kind.
    #[cycle(operands)]
    #[tactic(auto, using(image_words::specs::Parts::kind_there, crate::proofs::ExpressionRules::constant_returns, crate::proofs::ExpressionRules::raw_returns, crate::proofs::ExpressionRules::boolean_returns, crate::proofs::ExpressionRules::variable_returns))]
    fn check_expression(self, at: usize, level: u32, best: Fault) -> WalkedExpression
        requires { ExpressionRead level self.words.image.now at }
        ensures { view result ≡ expression_walked self.entry.words.types.now (array_count_in self.entry.words.table.now) self.entry.marks.now best
            (read_expression level self.entry.words.image.now at) }
    {
        let w = self.words.image[at];
        match kinds::of(w) {
            Kind::Constant => WalkedExpression {
                sort: Some(Sort::Word),
                next: at + 1,
                best,
            },
            Kind::RawConstant => WalkedExpression {
                sort: Some(Sort::Word),
                next: at + 2,
                best,
            },
            Kind::Boolean => WalkedExpression {
                sort: Some(Sort::Boolean),
                next: at + 1,
                best,
            },
            Kind::Variable => {
                let x = payload(w);
                WalkedExpression {
                    sort: variable_sort(self.words.types, x),
                    next: at + 1,
                    best: self.note_read(x, at, best),
                }
            }
            Kind::Cell => self.check_cell(at, level, best),
            Kind::Unary => self.check_unary(at, level, best),
            Kind::Binary => self.check_binary(at, level, best),
            Kind::Select => self.check_select(at, level, best),
        }
    }

    #[cycle(operands)]
    #[tactic(auto, using(image_words::specs::Parts::read_cell, crate::proofs::ExpressionRules::cell_returns))]
    fn check_cell(self, at: usize, level: u32, best: Fault) -> WalkedExpression
        requires { ExpressionRead level self.words.image.now at × (kind_of (get_or self.words.image.now at 0) ≡ 11) }
        ensures { view result ≡ expression_walked self.entry.words.types.now (array_count_in self.entry.words.table.now) self.entry.marks.now best
            (read_expression level self.entry.words.image.now at) }
    {
        let array = payload(self.words.image[at]);
        let named = note_missing(best, array_count(self.words.table), array, at);
        let i = self.check_operand(Some(Sort::Word), at + 1, level - 1, named);
        WalkedExpression {
            sort: Some(Sort::Word),
            ..i
        }
    }

    #[cycle(operands)]
    #[tactic(auto, using(image_words::specs::Parts::read_unary, crate::proofs::ExpressionRules::unary_there, crate::proofs::ExpressionRules::unary_returns))]
    fn check_unary(self, at: usize, level: u32, best: Fault) -> WalkedExpression
        requires { ExpressionRead level self.words.image.now at × (kind_of (get_or self.words.image.now at 0) ≡ 12) }
        ensures { view result ≡ expression_walked self.entry.words.types.now (array_count_in self.entry.words.table.now) self.entry.marks.now best
            (read_expression level self.entry.words.image.now at) }
    {
        let operator = UnaryOperator::of(payload(self.words.image[at]));
        let e = self.check_operand(Some(operator.operand()), at + 1, level - 1, best);
        WalkedExpression {
            sort: Some(operator.result()),
            ..e
        }
    }

    #[cycle(operands)]
    #[tactic(auto, using(faults::specs::Parts::operator_limit, image_words::specs::Parts::read_binary, crate::proofs::ExpressionRules::second_fine, crate::proofs::ExpressionRules::binary_returns))]
    fn check_binary(self, at: usize, level: u32, best: Fault) -> WalkedExpression
        requires { ExpressionRead level self.words.image.now at × (kind_of (get_or self.words.image.now at 0) ≡ 13) }
        ensures { view result ≡ expression_walked self.entry.words.types.now (array_count_in self.entry.words.table.now) self.entry.marks.now best
            (read_expression level self.entry.words.image.now at) }
    {
        let operator = Operator::of(payload(self.words.image[at]));
        let want = Some(operator.operands());
        let e = self.check_operand(want, at + 1, level - 1, best);
        let f = self.check_operand(want, e.next, level - 1, e.best);
        WalkedExpression {
            sort: Some(operator.result()),
            ..f
        }
    }

    // The condition is a boolean, and the second value has the first one's sort, which is the select's.
    #[cycle(operands)]
    #[tactic(auto, using(image_words::specs::Parts::read_condition, crate::proofs::ExpressionRules::values_fine, crate::proofs::ExpressionRules::value_fine, crate::proofs::ExpressionRules::select_returns))]
    fn check_select(self, at: usize, level: u32, best: Fault) -> WalkedExpression
        requires { ExpressionRead level self.words.image.now at × (kind_of (get_or self.words.image.now at 0) ≡ 14) }
        ensures { view result ≡ expression_walked self.entry.words.types.now (array_count_in self.entry.words.table.now) self.entry.marks.now best
            (read_expression level self.entry.words.image.now at) }
    {
        let inner = level - 1;
        let c = self.check_operand(Some(Sort::Boolean), at + 1, inner, best);
        let e = self.check_expression(c.next, inner, c.best);
        let f = self.check_operand(e.sort, e.next, inner, e.best);
        WalkedExpression { sort: e.sort, ..f }
    }
}
