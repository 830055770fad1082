// An image that was read, with the table that reading it left; and the body of one of its procedures.
ghost use Rattle.std.specs.Prelude.{◌≡◌, ◌<◌, get_or, length};
ghost use Rattle.definitions.specs.Image.{guarded};
ghost use Rattle.definitions.specs.Sorts.{sort_of};
ghost use Rattle.laws.specs.ImageIn.{image_in};
ghost use Rattle.tables.specs.Table.{Known, array_count_in, arrays_in, base_in, place_in, body_in, params_in};
ghost use Rattle.tables.specs.Looking.{Listed, procedure_in};

use super::{Table, signatures};
use image_words::lists::element;

// An image that was read, with the table that reading it left.
#[derive(Clone, Copy)]
pub struct Program<'a> {
    pub image: &'a [u32],
    pub table: &'a Table,
    ghost known: { Known image.now table.now },
}

// The procedure numbered `me`, with the type words of its variables: what a walk over its body carries along.
#[derive(Clone, Copy)]
pub struct Procedure<'a> {
    pub program: Program<'a>,
    pub types: &'a [u32],
    pub me: u32,
    ghost listed: { Listed program.image.now program.table.now me },
}

impl<'a> Program<'a> {
    // The number of procedures.
    pub fn procedures(self) -> u32
        ensures { result ≡ length (image_in self.entry.image.now).procedures }
    {
        image_words::procedures(element(self.image, 0))
    }

    pub fn form(self) -> u32
        ensures { result ≡ (image_in self.entry.image.now).form }
    {
        image_words::form(element(self.image, 0))
    }

    // The procedure numbered `me`.
    #[tactic(auto, using(crate::proofs::Bodies::types_begin, crate::proofs::Bodies::types_end, crate::proofs::Bodies::types_part, crate::proofs::Bodies::listed))]
    pub fn procedure(self, me: u32) -> Procedure<'a>
        requires { me < length (image_in self.image.now).procedures }
        ensures of { (result.me ≡ me) × (result.program.image.now ≡ self.entry.image.now) × (result.program.table.now ≡ self.entry.table.now) }
        ensures typed { result.types.now ≡ (procedure_in self.entry.image.now me).types }
    {
        let first = super::place(self.table, me) + 1 + 1;
        let body = super::body(self.table, me);
        let types = &self.image[first..body];
        Procedure {
            program: self,
            types,
            me,
        }
    }

    // The word of an array, 0 where there is none.
    pub fn array(self, a: u32) -> u32
        ensures { result ≡ get_or (arrays_in self.entry.table.now) a 0 }
    {
        super::array(self.table, a)
    }

    // Where the cells of an array begin.
    pub fn base(self, a: u32) -> u32
        ensures { result ≡ base_in self.entry.table.now a }
    {
        super::base(self.table, a)
    }

    // The number of parameters of a procedure.
    pub fn parameters(self, f: u32) -> u32
        ensures { result ≡ get_or (params_in self.entry.table.now) f 0 }
    {
        super::parameters(self.table, f)
    }

    #[tactic(auto, using(crate::proofs::Bodies::listed))]
    pub fn is_guarded(self, f: u32) -> bool
        requires { f < length (image_in self.image.now).procedures }
        ensures { result ≡ guarded (procedure_in self.entry.image.now f) }
    {
        signatures::is_guarded(self.image, self.table, f)
    }

    // The type word of a procedure's result.
    #[tactic(auto, using(crate::proofs::Bodies::listed))]
    pub fn result_type(self, f: u32) -> u32
        requires { f < length (image_in self.image.now).procedures }
        ensures { result ≡ (procedure_in self.entry.image.now f).result }
    {
        signatures::result_type(self.image, self.table, f)
    }

    // The type word of a procedure's variable `k`, 0 where there is none.
    #[tactic(auto, using(crate::proofs::Bodies::listed))]
    pub fn variable_type(self, f: u32, k: u32) -> u32
        requires { f < length (image_in self.image.now).procedures }
        ensures { result ≡ get_or (procedure_in self.entry.image.now f).types k 0 }
    {
        signatures::variable_type(self.image, self.table, f, k)
    }
}

impl Procedure<'_> {
    // The place of its body.
    pub fn body(self) -> usize
        ensures { result ≡ body_in self.entry.program.table.now self.entry.me }
    {
        super::body(self.program.table, self.me)
    }
}
