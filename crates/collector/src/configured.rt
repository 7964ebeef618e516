//! `run`: the payloads of an input go through the pipelines of a configuration.

ghost use Rattle.std.specs.Prelude.{◌≡◌, ◌+◌, ◌<◌, ◌≤◌, ◌∷◌, [], IfOk, OnOk, length, map};
ghost use Rattle.contract_words.specs.InputLines.{max_line, max_lines};
ghost use Rattle.export_sink.specs.Files.{AreApart};
ghost use Rattle.export_sink.specs.Planning.{conf_in, RunFits};
ghost use Rattle.graph_build.specs.Conf.{conf_of};
ghost use Rattle.leg_model.specs.Notes.{notes_from};
ghost use Rattle.leg_model.specs.Sums as sums;
ghost use Rattle.leg_model.specs.Totals.{totals_of, totals_text};
ghost use Rattle.tele_io.specs.Views.{SinkView, Told};
ghost use Rattle.tele_io.specs.Mark.{start_of};
ghost use Rattle.collector.specs.Between.{start, Stands, LinesEnd};
ghost use Rattle.collector.specs.Check.{lent};
ghost use Rattle.collector.specs.Configured as spec;
ghost use Rattle.collector.specs.Configured.{RunsConf, files_of, run_meaning};
ghost use Rattle.collector.specs.Devices.{Caused, Devices, devices};
ghost use Rattle.collector.specs.Ends.{Runs};
ghost use Rattle.collector.specs.Lines.{SumsUp, status_by};
ghost use Rattle.collector.specs.Meaning.{under};
ghost use Rattle.collector.specs.RunLines.{ApartFrom, EndsLine, LineNotes, LineTexts, Plans, nothing_gathered};
ghost use Rattle.collector.specs.Source.{IsSafeFrom, text_in};

use crate::check::{Said, tell};
use crate::run::write_summary;
use crate::source::Source;
use crate::status::Status;
use crate::stop::Stop;
use crate::words::Making;
use conf_draft::check_paths;
use conf_json::{ConfStop, MAX_CONF};
use export_sink::{
    RunPlan, bundle_line, create_files, no_totals, plan_run, plus_totals, summary_text,
    write_bundle,
};
use func_text::PatternMaker;
use graph_build::{Plan, check_conf};
use leg_model::Totals;
use load_gen::MAX_PAYLOADS;
use ottl_eval::KeptMatchers;
use run_texts::fault_note;
use std::alloc::Global;
use tele_io::{Disk, Lines, Sink, read_all};

/// How many lines were taken, and what is counted on them.
#[derive(Drop)]
pub struct Counted {
    pub payloads: u64,
    pub totals: Totals,
}

impl Counted {
    // Takes one line: writes what its payload gives, and counts it.
    fn run_line<'p, D: Disk, N: Sink>(
        &mut self,
        alloc: Global,
        plan: &RunPlan<'p>,
        line: &[u8],
        matchers: &mut KeptMatchers<'p>,
        disk: &mut D,
        notes: &mut N,
    ) -> Result<(), Stop>
        requires short { length line.now ≤ max_line }
        requires room { self.old.payloads < max_lines }
        requires fits { RunFits plan.now }
        requires apart { AreApart (files_of (conf_in plan.now) (line.now ∷ [])) }
        ensures texts { Told (LineTexts (files_of (conf_in plan.now) (line.now ∷ [])) result)
            (D.seen disk.old).held (D.seen disk.new).held }
        ensures notes { Told
            (LineNotes (notes_from (conf_in plan.now) (self.old.payloads + 1) (line.now ∷ []))
            result) (N.seen notes.old).held (N.seen notes.new).held }
        ensures counts { OnOk result ((self.new.payloads ≡ self.old.payloads + 1)
            × (self.new.totals ≡ sums.plus_totals self.old.totals
            (totals_of (conf_in plan.now) (line.now ∷ [])))) }
        ensures ends { EndsLine result }
        // When a fault comes, whatever the output is.
        ensures cause { (out : SinkView) → Caused (status_by result)
            (devices (D.seen disk.old) out (N.seen notes.old))
            (devices (D.seen disk.new) out (N.seen notes.new)) }
    {
        let bundle = bundle_line(alloc, plan, self.payloads + 1, line, matchers)?;
        let totals = plus_totals(alloc, &self.totals, &bundle.totals)?;
        let exporters = plan.legs.draft.exporters.as_slice();
        match write_bundle(disk, notes, exporters, &bundle) {
            Ok(()) => {
                self.payloads += 1;
                self.totals = totals;
                Ok(())
            }
            Err(stop) => Err(Stop::from(stop)),
        }
    }
}

// Takes all lines.
fn run_lines<D: Disk, N: Sink>(
    alloc: Global,
    plan: &RunPlan<'_>,
    source: &mut Source,
    lines: &mut Lines,
    counted: &mut Counted,
    disk: &mut D,
    notes: &mut N,
) -> Result<(), Stop>
    requires first { lines.old ≡ start_of lines.old.name }
    requires fits { RunFits plan.now }
    requires apart { ApartFrom (text_in source.old lines.old.name) (conf_in plan.now) }
    requires fresh { (counted.old.payloads ≡ 0)
        × (counted.old.totals ≡ totals_of (conf_in plan.now) []) }
    // From where a run stands before its first line, whatever it began with and whatever the output
    // is.
    ensures ends { let conf = conf_in plan.now in
        let m = run_meaning conf (text_in source.old lines.old.name) in
        (begun : Devices) (out : SinkView)
        → Stands m (start (nothing_gathered conf)) begun
        (devices (D.seen disk.old) out (N.seen notes.old))
        → LinesEnd m (totals_text conf counted.new.totals) counted.new.totals.refused
        begun (devices (D.seen disk.new) out (N.seen notes.new)) result }
    // When a fault comes.
    ensures cause { (out : SinkView) → Caused (status_by result)
        (devices (D.seen disk.old) out (N.seen notes.old))
        (devices (D.seen disk.new) out (N.seen notes.new)) }
{
    let mut matchers = KeptMatchers::new(alloc);
    'lines: loop {
        match source.next(lines, disk) {
            Ok(Some(line)) => {
                match counted.run_line(alloc, plan, line.as_slice(), &mut matchers, disk, notes) {
                    Ok(()) => {}
                    Err(stop) => return Err(stop),
                }
            }
            Ok(None) => return Ok(()),
            Err(stop) => return Err(Stop::from(stop)),
        }
    }
}

// Writes the summary of a run that took all lines.
fn sum_up<O: Sink>(alloc: Global, plan: &RunPlan<'_>, totals: &Totals, out: &mut O) -> Status
    ensures { SumsUp result (totals_text (conf_in plan.now) totals.now) totals.now.refused
        (O.seen out.old) (O.seen out.new) }
{
    match summary_text(alloc, plan, totals) {
        Ok(summary) => write_summary(summary.as_slice(), totals.refused, out),
        Err(_) => Status::NoMemory,
    }
}

// Runs a plan over the lines under that name, to which no exporter writes.
fn run_plan<D: Disk, O: Sink, N: Sink>(
    alloc: Global,
    plan: &RunPlan<'_>,
    name: &str,
    source: &mut Source,
    disk: &mut D,
    out: &mut O,
    notes: &mut N,
) -> Status
    requires fits { RunFits plan.now }
    requires apart { ApartFrom (text_in source.old name.now) (conf_in plan.now) }
    ensures runs { Runs (run_meaning (conf_in plan.now) (text_in source.old name.now))
        (devices (D.seen disk.old) (O.seen out.old) (N.seen notes.old))
        (devices (D.seen disk.new) (O.seen out.new) (N.seen notes.new)) result }
    ensures cause { Caused result
        (devices (D.seen disk.old) (O.seen out.old) (N.seen notes.old))
        (devices (D.seen disk.new) (O.seen out.new) (N.seen notes.new)) }
{
    let mut lines = match Lines::begin(alloc, name) {
        Ok(lines) => lines,
        Err(_) => return Status::NoMemory,
    };
    let totals = match no_totals(alloc, plan) {
        Ok(totals) => totals,
        Err(_) => return Status::NoMemory,
    };
    match create_files(disk, plan.legs.draft.exporters.as_slice()) {
        Ok(()) => {}
        Err(_) => return Status::WriteFault,
    }
    let mut counted = Counted {
        payloads: 0,
        totals,
    };
    match run_lines(alloc, plan, source, &mut lines, &mut counted, disk, notes) {
        Ok(()) => sum_up(alloc, plan, &counted.totals, out),
        Err(stop) => Status::from(stop),
    }
}

// Plans a run, and runs it.
fn run_whole<D: Disk, O: Sink, N: Sink>(
    alloc: Global,
    plan: &Plan,
    name: &str,
    source: &mut Source,
    disk: &mut D,
    out: &mut O,
    notes: &mut N,
) -> Status
    requires apart { IfOk (conf_of plan.now) (ApartFrom (text_in source.old name.now)) }
    ensures runs { IfOk (conf_of plan.now) (λ conf.
        Runs (run_meaning conf (text_in source.old name.now))
        (devices (D.seen disk.old) (O.seen out.old) (N.seen notes.old))
        (devices (D.seen disk.new) (O.seen out.new) (N.seen notes.new)) result) }
    ensures cause { Caused result
        (devices (D.seen disk.old) (O.seen out.old) (N.seen notes.old))
        (devices (D.seen disk.new) (O.seen out.new) (N.seen notes.new)) }
{
    match plan_run(alloc, plan) {
        Ok(plan) => run_plan(alloc, &plan, name, source, disk, out, notes),
        Err(_) => Status::NoMemory,
    }
}

// The plan of a configuration whose exporters write to none of these names.
fn plan_beside<P: PatternMaker>(
    alloc: Global,
    maker: &mut P,
    bytes: &[u8],
    names: &[&str],
) -> Result<Plan, ConfStop>
    requires { length bytes.now ≤ MAX_CONF }
    ensures { Plans (P.refusals maker.old) (P.refusals maker.new)
        (map (λ name. name.now) names.now) bytes.now result }
{
    let plan = match check_conf(alloc, maker, bytes) {
        Ok(plan) => plan,
        Err(stop) => return Err(stop),
    };
    match check_paths(alloc, plan.draft(), names) {
        Ok(()) => Ok(plan),
        Err(stop) => Err(ConfStop::from(stop)),
    }
}

// Runs the configuration with that name, whose exporters may write to none of these names, over the
// lines under a name.
fn run_conf<D: Disk, O: Sink, N: Sink, P: PatternMaker>(
    alloc: Global,
    conf: &str,
    names: &[&str],
    name: &str,
    source: &mut Source,
    disk: &mut D,
    out: &mut O,
    notes: &mut N,
    maker: &mut P,
) -> Status
    requires { IsSafeFrom (map (λ name. name.now) names.now) source.old name.now }
    ensures runs { RunsConf (map (λ name. name.now) names.now) (text_in source.old name.now)
        conf.now
        (lent (devices (D.seen disk.old) (O.seen out.old) (N.seen notes.old))
        (P.refusals maker.old))
        (lent (devices (D.seen disk.new) (O.seen out.new) (N.seen notes.new))
        (P.refusals maker.new)) result }
    ensures cause { Caused result
        (devices (D.seen disk.old) (O.seen out.old) (N.seen notes.old))
        (devices (D.seen disk.new) (O.seen out.new) (N.seen notes.new)) }
{
    let bytes = match read_all(alloc, disk, conf, MAX_CONF as u64) {
        Ok(bytes) => bytes,
        Err(stop) => return Status::from(stop),
    };
    match plan_beside(alloc, maker, bytes.as_slice(), names) {
        Ok(plan) => run_whole(alloc, &plan, name, source, disk, out, notes),
        Err(ConfStop::Fault(fault)) => match fault_note(alloc, &fault) {
            Ok(note) => tell(&Said::Fault(note), out, notes),
            Err(_) => Status::NoMemory,
        },
        Err(ConfStop::NoMemory) => Status::NoMemory,
    }
}

/// Runs the configuration with that name over the payloads of the input.
pub fn run_alone<D: Disk, O: Sink, N: Sink, P: PatternMaker>(
    alloc: Global,
    conf: &str,
    input: &str,
    disk: &mut D,
    out: &mut O,
    notes: &mut N,
    maker: &mut P,
) -> Status
    ensures runs { RunsConf (input.now ∷ conf.now ∷ []) (under input.now) conf.now
        (lent (devices (D.seen disk.old) (O.seen out.old) (N.seen notes.old))
        (P.refusals maker.old))
        (lent (devices (D.seen disk.new) (O.seen out.new) (N.seen notes.new))
        (P.refusals maker.new)) result }
    ensures cause { Caused result
        (devices (D.seen disk.old) (O.seen out.old) (N.seen notes.old))
        (devices (D.seen disk.new) (O.seen out.new) (N.seen notes.new)) }
{
    let mut source = Source::File;
    let names = [input, conf];
    run_conf(
        alloc,
        conf,
        &names,
        input,
        &mut source,
        disk,
        out,
        notes,
        maker,
    )
}

/// Runs the configuration with that name over so many payloads that are made from a seed.
pub fn run_demo<D: Disk, O: Sink, N: Sink, P: PatternMaker>(
    alloc: Global,
    conf: &str,
    made: Making,
    disk: &mut D,
    out: &mut O,
    notes: &mut N,
    maker: &mut P,
) -> Status
    requires { made.count ≤ MAX_PAYLOADS }
    ensures runs { RunsConf (conf.now ∷ []) (spec.made made.seed made.count) conf.now
        (lent (devices (D.seen disk.old) (O.seen out.old) (N.seen notes.old))
        (P.refusals maker.old))
        (lent (devices (D.seen disk.new) (O.seen out.new) (N.seen notes.new))
        (P.refusals maker.new)) result }
    ensures cause { Caused result
        (devices (D.seen disk.old) (O.seen out.old) (N.seen notes.old))
        (devices (D.seen disk.new) (O.seen out.new) (N.seen notes.new)) }
{
    let mut source = match Source::made(alloc, "demo", made.seed, made.count) {
        Ok(source) => source,
        Err(_) => return Status::NoMemory,
    };
    run_conf(
        alloc,
        conf,
        &[conf],
        "demo",
        &mut source,
        disk,
        out,
        notes,
        maker,
    )
}
