// The rules at an instruction where it stands.
ghost use Rattle.std.specs.Prelude.{◌≡◌, false, not, length, is_some, if◌then◌else◌, Some, None, nat_lt};
ghost use Rattle.declarations.specs.Views.{procedure_seen};
ghost use Rattle.instruction.specs.Decoding.{decoded};
ghost use Rattle.instruction.specs.Effects.{effect_of};
ghost use Rattle.package.specs.Package.{Package};
ghost use Rattle.shape.specs.Shapes.{left};
ghost use Rattle.rules.specs.declared.rule.Rule.TheVariants.{Astray, FallsOut, Missing, OutOfRegion, TooDeep, Unreached, UnlikeMark, UnlikeTarget};
ghost use Rattle.rules.specs.Asking.{inside_of, mark_shape};
ghost use Rattle.rules.specs.Needs.{unlike};
ghost use Rattle.rules.specs.Sites.{broken_at, instruction_rules, left_by, lowest, onward, site_of, some, too_deep};
ghost use Rattle.rules.specs.Judging.{judged_at, settled, site_seen};

use super::needs::{is_unlike, mark_shape, shape_before, under_upper, without};
use super::regions::Region;
use super::rule::Rule;
use declarations::procedures::ProcedureView;
use entries::Entry;
use instruction::{Decoded, Effect, decode};
use package::ReadPackage;
use shape::Shape;

// The rules on instructions, in their order.
const INSTRUCTION_RULES: [Rule; 8] = [
    Rule::Unreached,
    Rule::UnlikeMark,
    Rule::Astray,
    Rule::Missing,
    Rule::OutOfRegion,
    Rule::TooDeep,
    Rule::UnlikeTarget,
    Rule::FallsOut,
];

// An instruction where it stands, with the shapes about it: its mark's, what falls in, what is before it, and what is
// there without the upper part and without all of what it needs.
// Clauses see it through `site_seen`, and not by a model, since its package is no part of a site.
#[derive(Clone, Copy)]
pub struct SiteView<'r, 'a> {
    read: &'r ReadPackage<'a>,
    owner: ProcedureView<'a>,
    effect: Effect,
    next: usize,
    mark: Option<Shape>,
    carry: Option<Shape>,
    before: Option<Shape>,
    under: Option<Shape>,
    rest: Option<Shape>,
}

impl<'r, 'a> SiteView<'r, 'a> {
    // The instruction that decodes at an offset, which a procedure owns, and where a shape, if any, falls in.
    fn of(
        read: &'r ReadPackage<'a>,
        owner: ProcedureView<'a>,
        at: usize,
        carry: Option<Shape>,
        found: Decoded,
    ) -> SiteView<'r, 'a>
        ensures is { site_seen result ≡ site_of read.now (procedure_seen owner.entry) (effect_of found.instruction) at found.next (mark_shape read.now at) carry }
        ensures of { result.read.now ≡ read.now }
    {
        let effect = found.instruction.effect();
        let next = found.next;
        let mark = mark_shape(read, at);
        let before = shape_before(usize::from(owner.offset) == at, &mark, &carry);
        // By `match`: with a closure for `and_then` the check leaves a goal open.
        let under = match &before {
            Some(shape) => under_upper(read, next, effect, shape),
            None => None,
        };
        let rest = match &under {
            Some(shape) => without(shape, effect.lower),
            None => None,
        };
        SiteView {
            read,
            owner,
            effect,
            next,
            mark,
            carry,
            before,
            under,
            rest,
        }
    }

    fn is_unreached(&self) -> bool
        ensures { result ≡ not (is_some (site_seen self.now).before) }
    {
        self.before.is_none()
    }

    fn is_unlike_mark(&self) -> bool
        ensures { result ≡ unlike (site_seen self.now).mark (site_seen self.now).carry }
    {
        is_unlike(&self.mark, &self.carry)
    }

    fn is_astray(&self) -> bool
        ensures { result ≡ broken_at self.now.read.now (site_seen self.now) Astray }
    {
        let flow = self.effect.flow;
        if let Some(target) = flow.target(self.next) {
            return !(self.read.mark_at(target).is_some() && self.is_inside(target));
        }
        if let Some(callee) = flow.callee(self.next) {
            return !(usize::from(self.read.owner(callee).offset) == callee && callee != 0);
        }
        false
    }

    fn is_missing(&self) -> bool
        ensures { result ≡ not (is_some (site_seen self.now).rest) }
    {
        self.rest.is_none()
    }

    fn is_out_of_region(&self) -> bool
        ensures { result ≡ broken_at self.now.read.now (site_seen self.now) OutOfRegion }
    {
        let found = match &self.under {
            Some(shape) => shape.top(),
            None => None,
        };
        let region = Region {
            owner: self.owner,
            globals: self.read.globals_size(),
        };
        region.is_left_by(self.effect, found)
    }

    fn is_too_deep(&self) -> bool
        ensures { result ≡ some (left_by (site_seen self.now)) (too_deep (site_seen self.now).owner) }
    {
        let Some(rest) = &self.rest else {
            return false;
        };
        match leaving(rest, self.effect.leaves) {
            Some(left) => left.exceeds(self.owner.depth),
            None => true,
        }
    }

    fn is_unlike_target(&self) -> bool
        ensures { result ≡ broken_at self.now.read.now (site_seen self.now) UnlikeTarget }
    {
        let Some(rest) = &self.rest else {
            return false;
        };
        let Some(target) = self.effect.flow.target(self.next) else {
            return false;
        };
        let Some(told) = mark_shape(self.read, target) else {
            return false;
        };
        match leaving(rest, self.effect.leaves) {
            Some(left) => told != left,
            None => true,
        }
    }

    fn falls_out(&self) -> bool
        ensures { result ≡ broken_at self.now.read.now (site_seen self.now) FallsOut }
    {
        self.effect.flow.falls_through() && !self.is_inside(self.next)
    }

    // Whether a rule is broken here, in a match that leaves out none. The rules on decoding and on places are not rules
    // on instructions.
    fn breaks(&self, rule: Rule) -> bool
        ensures { result ≡ broken_at self.now.read.now (site_seen self.now) rule }
    {
        match rule {
            Rule::Undecoded | Rule::Misplaced => false,
            Rule::Unreached => self.is_unreached(),
            Rule::UnlikeMark => self.is_unlike_mark(),
            Rule::Astray => self.is_astray(),
            Rule::Missing => self.is_missing(),
            Rule::OutOfRegion => self.is_out_of_region(),
            Rule::TooDeep => self.is_too_deep(),
            Rule::UnlikeTarget => self.is_unlike_target(),
            Rule::FallsOut => self.falls_out(),
        }
    }

    // The first rule on instructions that is broken.
    fn broken(&self) -> Option<Rule>
        ensures { result ≡ lowest instruction_rules (broken_at self.now.read.now (site_seen self.now)) }
    {
        INSTRUCTION_RULES
            .iter()
            .copied()
            .find(|rule| self.breaks(*rule))
    }

    // Whether an offset lies in the code of the procedure here.
    fn is_inside(&self, at: usize) -> bool
        ensures { result ≡ inside_of self.now.read.now (procedure_seen self.now.owner) at }
    {
        at < self.read.code().len() && self.read.owner(at).offset == self.owner.offset
    }

    // The first rule on instructions that is broken, or else what falls on.
    fn judged(&self) -> Result<Option<Shape>, Rule>
        ensures { result ≡ settled (lowest instruction_rules (broken_at self.now.read.now (site_seen self.now))) (onward (site_seen self.now)) }
    {
        match self.broken() {
            Some(rule) => Err(rule),
            None => Ok(self.onward()),
        }
    }

    // What falls on to the next instruction.
    fn onward(&self) -> Option<Shape>
        requires { some (left_by (site_seen self.now)) (too_deep (site_seen self.now).owner) ≡ false }
        ensures { result ≡ onward (site_seen self.now) }
    {
        if !self.effect.flow.falls_through() {
            return None;
        }
        leaving(self.rest.as_ref()?, self.effect.leaves)
    }
}

// A shape with an entry, if any, left on it (as `without`, with another call); none where it would have more than
// sixteen.
fn leaving(rest: &Shape, leaves: Option<Entry>) -> Option<Shape>
    ensures { result ≡ (if nat_lt 16 (length (left leaves rest.now)) then None else Some (left leaves rest.now)) }
{
    let mut all = *rest;
    all.leave(leaves).ok()?;
    Some(all)
}

// The rules on instructions at an offset, where a shape, if any, falls in: the first that is broken, or else what falls
// on. Where no instruction decodes, none is broken, and nothing falls on.
pub fn judge(read: &ReadPackage<'_>, at: usize, carry: Option<Shape>) -> Result<Option<Shape>, Rule>
    ensures { result ≡ judged_at read.now at carry (decoded read.now.code at) }
{
    let Some(found) = decode(read.code(), at) else {
        return Ok(None);
    };
    SiteView::of(read, read.owner(at), at, carry, found).judged()
}
