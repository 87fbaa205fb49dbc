//! `run` and `live` over the worksheet at a path, with lines of the input.
ghost use Rattle.std.specs.Prelude.{◌≡◌};
ghost use Rattle.command_words.specs.Asked.{run_view};
ghost use Rattle.host_cli.specs.Tasks.{DoesLive, DoesRun, LivesAs, LivesPartial, RunsScript};
ghost use Rattle.tellings.specs.Json.{in_json};
ghost use Rattle.tellings.specs.Words.{in_words};

use crate::outside::{Outside, Performed, System, SystemView, ended};
use crate::plans::read_limit;
use crate::refusing::refuse_run_limit;
use command_words::RunWords;
use live::Manner;
use partial_output::TellsPartial;
use program_endings::{GivenBack, LineSetting, Resources, end_unheld, run_live, run_script};
use sheet_files::Places;
use std::alloc::Global;
use tellings::{InJson, InWords, Tells};

/// Lines and what comes of interpreters are taken as they come.
const AS_IT_COMES: Manner = Manner {
    lines_first: false,
    limit: None,
    strict: false,
};

/// The lines of the input over the worksheet at a path, taken and printed in this setting.
fn live_reported<Y: System, T: Tells + Copy>(
    setting: LineSetting<T>,
    mut outside: Outside<Y>,
    path: &str,
) -> Performed<Y>
    ensures does { LivesAs ⟦<Y as SystemView>⟧.outer setting.manner T.voice outside result.outside
        result.ending path.now }
    ensures leaves { result.outside.progress ≡ outside.progress }
{
    if let Err(why) = outside.places.hold() {
        return ended(end_unheld(why, &mut outside.errors), outside);
    }
    let files = outside.places.open(path);
    let Outside {
        places,
        sources,
        mut input,
        output,
        mut errors,
        progress,
    } = outside;
    let given = Resources {
        files,
        sources,
        output,
    };
    let GivenBack {
        ending,
        sources,
        output,
    } = run_live(setting, &mut input, given, &mut errors);
    Performed {
        ending,
        outside: Outside {
            places,
            sources,
            input,
            output,
            errors,
            progress,
        },
    }
}

/// `live` in words.
pub(crate) fn live_at<Y: System>(alloc: Global, outside: Outside<Y>, path: &str) -> Performed<Y>
    ensures does { DoesLive ⟦<Y as SystemView>⟧.outer in_words outside result.outside result.ending
        path.now }
    ensures leaves { result.outside.progress ≡ outside.progress }
{
    let setting = LineSetting {
        alloc,
        manner: AS_IT_COMES,
        tells: InWords,
    };
    live_reported(setting, outside, path)
}

/// `live` in lines of JSON.
pub(crate) fn live_json_at<Y: System>(
    alloc: Global,
    outside: Outside<Y>,
    path: &str,
) -> Performed<Y>
    ensures does { DoesLive ⟦<Y as SystemView>⟧.outer in_json outside result.outside result.ending
        path.now }
    ensures leaves { result.outside.progress ≡ outside.progress }
{
    let setting = LineSetting {
        alloc,
        manner: AS_IT_COMES,
        tells: InJson { alloc },
    };
    live_reported(setting, outside, path)
}

/// `live` in lines of JSON, with what interpreters write before it is an answer.
pub(crate) fn live_partial_at<Y: System>(
    alloc: Global,
    mut outside: Outside<Y>,
    path: &str,
) -> Performed<Y>
    ensures does { LivesPartial ⟦<Y as SystemView>⟧.outer outside result.outside result.ending
        path.now }
    ensures leaves { result.outside.progress ≡ outside.progress }
{
    outside.sources.tell_partial();
    live_json_at(alloc, outside, path)
}

/// `run` of the script on the input, in words and without a limit of time.
fn run_reported<Y: System>(
    alloc: Global,
    mut outside: Outside<Y>,
    strict: bool,
    path: &str,
) -> Performed<Y>
    ensures does { RunsScript ⟦<Y as SystemView>⟧.outer strict outside result.outside result.ending
        path.now }
    ensures leaves { result.outside.progress ≡ outside.progress }
{
    if let Err(why) = outside.places.hold() {
        return ended(end_unheld(why, &mut outside.errors), outside);
    }
    let files = outside.places.open(path);
    let Outside {
        places,
        sources,
        mut input,
        output,
        mut errors,
        progress,
    } = outside;
    let given = Resources {
        files,
        sources,
        output,
    };
    let GivenBack {
        ending,
        sources,
        output,
    } = run_script(alloc, strict, &mut input, given, &mut errors);
    Performed {
        ending,
        outside: Outside {
            places,
            sources,
            input,
            output,
            errors,
            progress,
        },
    }
}

/// `run` as its words ask for it.
pub(crate) fn run_at<Y: System>(
    alloc: Global,
    mut outside: Outside<Y>,
    path: &str,
    words: RunWords<'_>,
) -> Performed<Y>
    ensures does { DoesRun ⟦<Y as SystemView>⟧.outer outside result.outside result.ending path.now
        (run_view words.entry) }
    ensures leaves { result.outside.progress ≡ outside.progress }
{
    let Some(limit) = read_limit(words.timeout) else {
        return ended(refuse_run_limit(&mut outside.errors), outside);
    };
    let manner = Manner {
        lines_first: true,
        limit,
        strict: words.strict,
    };
    if words.json {
        let tells = InJson { alloc };
        let setting = LineSetting {
            alloc,
            manner,
            tells,
        };
        return live_reported(setting, outside, path);
    }
    if limit.is_some() {
        let tells = InWords;
        let setting = LineSetting {
            alloc,
            manner,
            tells,
        };
        return live_reported(setting, outside, path);
    }
    run_reported(alloc, outside, words.strict, path)
}
