// The default table is read, line by line, and admitted.
use admission::{Figures, Plan, Scheduled, Task, admit};
use fault::Fault;
use queue::{Release, Source};
use releases::first_releases;
use std::io;
use table::Table;
use table::rows::{HeapRow, KindRow, MAX_KINDS, MAX_TASKS, NO_KIND, NO_TASK, StaticRow, TaskRow};

// Two tasks that share a heap of 64 words in each space and 40 handles.
pub const TEXT: &str =
    "heap,64,40\nstatic,4,2\nkind,2,2\ntask,50,50,5,2,1,1,0\ntask,100,100,20,4,2,1,0\n";

fn show_kind(rt: &HostRuntime, number: usize, row: KindRow) -> io::Result<()> {
    let KindRow { size, map } = row;
    let references = map.count_ones();
    println!(rt; "table: kind {number} has {size} words, {references} of them references")
}

fn show_task(rt: &HostRuntime, number: usize, row: TaskRow) -> io::Result<()> {
    let TaskRow {
        period,
        deadline,
        units,
        words,
        objects,
        ..
    } = row;
    println!(rt;
        "table: task {number} comes every {period} ticks, has {units} units to do in {deadline}, and may allocate {words} words in {objects} objects"
    )
}

fn show_table(
    rt: &HostRuntime,
    table: Table,
    kinds: &[KindRow],
    tasks: &[TaskRow],
) -> io::Result<()> {
    let HeapRow { space, handles } = table.heap;
    let StaticRow { words, objects } = table.statics;
    println!(rt; "table: two spaces of {space} words, and {handles} handles")?;
    println!(rt; "table: {words} words in {objects} objects live for good")?;
    for (number, row) in (1..).zip(kinds).take(table.kind_count) {
        show_kind(rt, number, *row)?;
    }
    for (number, row) in (1..).zip(tasks).take(table.task_count) {
        show_task(rt, number, *row)?;
    }
    Ok(())
}

// Reads the default table.
pub(crate) fn read_table(rt: &HostRuntime) -> io::Result<()> {
    let mut kinds = [NO_KIND; MAX_KINDS];
    let mut tasks = [NO_TASK; MAX_TASKS];
    match table::read(TEXT.as_bytes(), &mut kinds, &mut tasks) {
        Ok(table) => show_table(rt, table, &kinds, &tasks),
        Err(fault) => println!(rt; "table: {fault}"),
    }
}

// How often a task is released in a stretch of time, at most.
fn times(stretch: u32, period: u32) -> u32 {
    if period == 0 {
        0
    } else {
        stretch.div_ceil(period)
    }
}

// What these tasks ask for in a stretch of time, term by term: each job its part.
fn show_terms<F: Fn(&Task) -> u32>(
    rt: &HostRuntime,
    tasks: &[Scheduled],
    stretch: u32,
    part: F,
) -> io::Result<()>
    requires { F.IsAlwaysCallable part }
{
    for Scheduled { task, .. } in tasks {
        if task.number != 0 {
            let count = times(stretch, task.period);
            let each = part(task);
            print!(rt; " + {count}*{each}")?;
        }
    }
    Ok(())
}

fn show_bounds(rt: &HostRuntime, figures: &Figures) -> io::Result<()> {
    let HeapRow { space, handles } = figures.heap;
    let Figures {
        live_words,
        live_objects,
        steps,
        lateness,
        span,
        ..
    } = figures;
    println!(rt; "plan: at most {live_words} words in {live_objects} objects are alive at a flip")?;
    println!(rt;
        "plan: a collection takes at most 1 + {live_objects} + {live_words} + {handles} + {space} = {steps} steps"
    )?;
    print!(rt; "plan: a flip is at most {lateness} ticks late: 1")?;
    show_terms(rt, &figures.tasks, *lateness, |t| t.units)?;
    println!(rt; " <= {lateness}")?;
    print!(rt; "plan: a whole collection is done within {span} ticks: {steps}")?;
    show_terms(rt, &figures.tasks, *span, |t| t.units)?;
    println!(rt; " <= {span}")
}

fn show_period(rt: &HostRuntime, figures: &Figures) -> io::Result<()> {
    let HeapRow { space, handles } = figures.heap;
    let Figures {
        period,
        live_words,
        live_objects,
        lateness,
        ..
    } = figures;
    let stretch = period.saturating_add(*lateness);
    println!(rt;
        "plan: the collector comes every {period} ticks, so two flips are at most {stretch} apart"
    )?;
    print!(rt; "plan: words: {live_words}")?;
    show_terms(rt, &figures.tasks, stretch, |t| t.words)?;
    println!(rt; " <= {space}")?;
    print!(rt; "plan: handles: {live_objects} + 2*(0")?;
    show_terms(rt, &figures.tasks, stretch, |t| t.objects)?;
    println!(rt; ") <= {handles}")
}

fn show_ranks(rt: &HostRuntime, figures: &Figures) -> io::Result<()> {
    for (i, scheduled) in figures.tasks.iter().enumerate() {
        let Scheduled { task, response } = *scheduled;
        let Task {
            number,
            deadline,
            units,
            ..
        } = task;
        if number != 0 {
            print!(rt;
                "plan: task {number} answers within {response} of its {deadline} ticks: {units}"
            )?;
            show_terms(rt, &figures.tasks[..i], response, |t| t.units)?;
            println!(rt; " <= {response}")?;
        }
    }
    Ok(())
}

fn show_release(rt: &HostRuntime, release: Release) -> io::Result<()> {
    let Release { tick, source, .. } = release;
    match source {
        Source::Task(number) => println!(rt; "plan: at tick {tick} task {number} is released"),
        Source::Collector => println!(rt; "plan: at tick {tick} the collector is due"),
    }
}

fn show_plan(rt: &HostRuntime, plan: &Plan) -> io::Result<()> {
    let figures = plan.figures();
    show_ranks(rt, figures)?;
    show_bounds(rt, figures)?;
    show_period(rt, figures)?;
    if let Some(releases) = first_releases(plan) {
        for release in releases {
            show_release(rt, release)?;
        }
    }
    Ok(())
}

// Admits the default table.
pub(crate) fn admit_table(rt: &HostRuntime) -> io::Result<()> {
    let mut kinds = [NO_KIND; MAX_KINDS];
    let mut tasks = [NO_TASK; MAX_TASKS];
    let mut plan = Plan::blank();
    match admit(TEXT.as_bytes(), &mut kinds, &mut tasks, &mut plan) {
        Ok(()) => show_plan(rt, &plan),
        Err(fault) => println!(rt; "plan: {fault}"),
    }
}
