// The verdict of a file: numbers 1 to 12, and 15 before 12, in the documents' order.
ghost use Rattle.std.specs.Prelude.{◌≡◌, ◌+◌, ◌<◌};
ghost use Rattle.blocks.specs.Kinds.{rule_kind};
ghost use Rattle.blocks.specs.Block.{block_at, kind_of, first_entries, second_entries};
ghost use Rattle.terms.specs.Decisions.{Says};
ghost use Rattle.judge.specs.File.{block_count, certificate_of, rule_of};
ghost use Rattle.judge.specs.Laid.{Laid};
ghost use Rattle.judge.specs.Judgement.{judged_of, next_of, rule_found, OnlyRulesFrom, Headed};
ghost use Rattle.judge.specs.Listed.{NeverHat, SharesUnmarked};
ghost use Rattle.judge.specs.CoverEntries.{AfterRule, Carried, Repeats};
ghost use Rattle.judge.specs.Verdict.{on_kind, open_secret_rule, uncovered_rule, rule_fault, certificate_fault, fault_of, verdict_of};
ghost use Rattle.judge.specs.Values.{verdict_values, judging_values};

use crate::cover::RuleFault;
use crate::flag::FLAGS;
use crate::listed::{Condition, LISTED_SIZES};
use crate::tables::Tables;
use crate::verdict::{Fault, Verdict};
use crate::{cover, flag, form, listed};
use blocks::kinds::Kind;
use blocks::limits;

// So many blocks that only rules stand behind them: they list all secrets and patterns.
fn leading(file: &[u8]) -> usize
    requires { Laid file.now }
    ensures { OnlyRulesFrom file.now result }
{
    for i in (1..file.len() / limits::BLOCK_SIZE).rev() {
        if !blocks::is_kind(blocks::block(file, i), Kind::Rule) {
            return i + 1;
        }
    }
    1
}

// Is the block before block i a rule?
fn is_after_rule(file: &[u8], i: usize) -> bool
    requires { i < block_count file.now }
    ensures { Says result (AfterRule file.now i) }
{
    i != 0 && blocks::is_kind(blocks::block(file, i - 1), Kind::Rule)
}

// Has rule i the premise of the rule before it? This and the next stay two: one with the part as a parameter is no shorter, and
// needs a contract on it.
fn repeats_premise(file: &[u8], i: usize) -> bool
    requires { Laid file.now × (i < block_count file.now) × (kind_of (block_at file.now i) ≡ rule_kind) }
    ensures { Says result (Repeats first_entries file.now i) }
{
    is_after_rule(file, i)
        && blocks::first_entries(blocks::block(file, i - 1))
            == blocks::first_entries(blocks::block(file, i))
}

// Has rule i the conclusion of the rule before it?
fn repeats_conclusion(file: &[u8], i: usize) -> bool
    requires { Laid file.now × (i < block_count file.now) × (kind_of (block_at file.now i) ≡ rule_kind) }
    ensures { Says result (Repeats second_entries file.now i) }
{
    is_after_rule(file, i)
        && blocks::second_entries(blocks::block(file, i - 1))
            == blocks::second_entries(blocks::block(file, i))
}

// Number 15 at rule i, and 12 if it is asked. What the file lists is read from its head. What was found for the encryptions
// of a premise or a conclusion serves again where the next rule has the same.
fn found_in(
    file: &[u8],
    tables: &Tables,
    above: &mut [Option<bool>; FLAGS],
    shared: &mut [Option<bool>; FLAGS],
    i: usize,
    asked: bool,
) -> Option<RuleFault>
    requires { Headed tables.now.file.now file.now × (i < block_count file.now) × (kind_of (block_at file.now i) ≡ rule_kind)
        × Carried first_entries (NeverHat (certificate_of tables.now.file.now)) file.now i above.old
        × Carried second_entries (SharesUnmarked (certificate_of tables.now.file.now)) file.now i shared.old }
    ensures answer { result ≡ rule_found asked (certificate_of tables.now.file.now) (rule_of (block_at file.now i)) }
    ensures premise { Carried first_entries (NeverHat (certificate_of tables.now.file.now)) file.now (i + 1) above.new }
    ensures conclusion { Carried second_entries (SharesUnmarked (certificate_of tables.now.file.now)) file.now (i + 1) shared.new }
{
    flag::renew(above, repeats_premise(file, i));
    flag::renew(shared, repeats_conclusion(file, i));
    cover::rule_found(tables, above, shared, blocks::block(file, i), asked)
}

// Numbers 15 and 12 at block i, if it is a rule. The first 12 so far is held, and 12 is asked only if there is none.
fn rule_at(
    file: &[u8],
    tables: &Tables,
    above: &mut [Option<bool>; FLAGS],
    shared: &mut [Option<bool>; FLAGS],
    i: usize,
    held: Option<Fault>,
) -> Result<Option<Fault>, Fault>
    requires { Headed tables.now.file.now file.now × (i < block_count file.now)
        × Carried first_entries (NeverHat (certificate_of tables.now.file.now)) file.now i above.old
        × Carried second_entries (SharesUnmarked (certificate_of tables.now.file.now)) file.now i shared.old }
    ensures answer { result ≡ next_of held (on_kind rule_kind (open_secret_rule (certificate_of file.now)) file.now i)
        (on_kind rule_kind (uncovered_rule (certificate_of file.now)) file.now i) }
    ensures premise { Carried first_entries (NeverHat (certificate_of tables.now.file.now)) file.now (i + 1) above.new }
    ensures conclusion { Carried second_entries (SharesUnmarked (certificate_of tables.now.file.now)) file.now (i + 1) shared.new }
{
    let block = blocks::block(file, i);
    if !blocks::is_kind(block, Kind::Rule) {
        return Ok(held);
    }
    let asked = held.is_none();
    match found_in(file, tables, above, shared, i, asked) {
        Some(RuleFault::PremiseAt(k)) => Err(Fault::OpenSecret(i as u8, k as u8)),
        Some(RuleFault::ConclusionAt(k)) => Ok(Some(Fault::Uncovered(
            i as u8,
            (blocks::first_count(block) + k) as u8,
        ))),
        None => Ok(held),
    }
}

// Numbers 15 and 12, each over all rules: 15 of a later rule comes before 12 of an earlier one.
#[tactic(auto, using(crate::proofs::Stages::Heads::heads))]
fn rule_fault(file: &[u8]) -> Result<(), Fault>
    requires { Laid file.now }
    ensures { result ≡ judged_of (rule_fault (certificate_of file.now) file.now) }
{
    let n = leading(file);
    let head = &file[0..limits::BLOCK_SIZE * n];
    let roots = listed::secret_roots(head);
    let mut sizes = [0u8; LISTED_SIZES];
    listed::listed_sizes(head, &mut sizes);
    let tables = Tables {
        file: head,
        sizes: &sizes,
        roots: &roots,
    };
    let mut above = [None; FLAGS];
    let mut shared = [None; FLAGS];
    let mut held = None;
    for i in 0..file.len() / limits::BLOCK_SIZE {
        held = rule_at(file, &tables, &mut above, &mut shared, i, held)?;
    }
    match held {
        Some(f) => Err(f),
        None => Ok(()),
    }
}

// Numbers 9, 10, 11, then 15 and 12, each over all blocks.
#[tactic(auto, unfolding(crate::specs::Verdict::certificate_fault, crate::specs::Judgement::judged_of))]
fn certificate_fault(file: &[u8]) -> Result<(), Fault>
    requires { Laid file.now }
    ensures { result ≡ judged_of (certificate_fault (certificate_of file.now) file.now) }
{
    listed::condition_fault(file, Condition::NotKnown)?;
    listed::condition_fault(file, Condition::Closed)?;
    listed::condition_fault(file, Condition::Kept)?;
    rule_fault(file)
}

// The first fault in the documents' order: 1; 2, 3, 5, 6 or 7, 8 block by block; 4; 9 to 11; 15; 12.
#[tactic(auto, unfolding(crate::specs::Verdict::fault_of, crate::specs::Verdict::length_fault, crate::specs::Judgement::judged_of))]
fn first_fault(file: &[u8]) -> Result<(), Fault>
    ensures { result ≡ judged_of (fault_of file.now) }
{
    if !form::length_right(file) {
        return Err(Fault::Length);
    }
    form::form_fault(file)?;
    form::missing_fault(file)?;
    certificate_fault(file)
}

// The verdict: refused with the first fault, or accepted with the file's own counts.
#[tactic(auto, using(crate::proofs::Stages::JudgingLaws::fault_none), unfolding(crate::specs::Verdict::verdict_of, crate::specs::Values::judging_values, crate::specs::File::counts_of, crate::specs::Judgement::judged_of))]
pub fn judge(file: &[u8]) -> Verdict
    ensures verdict { result ≡ verdict_of file.now }
    ensures values { verdict_values result ≡ judging_values file.now }
{
    match first_fault(file) {
        Err(f) => Verdict::Refused(f),
        Ok(()) => Verdict::Accepted(form::counts(file)),
    }
}
