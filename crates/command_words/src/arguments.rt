//! The words that a subcommand may have: who gives one a word more adds it here, and in `specs/Asked.antt`.
ghost use Rattle.std.specs.Prelude.{◌≡◌, IfNone, IfSome, false};
ghost use Rattle.clap.specs.Words.{Text, new_app, rule_of};
ghost use Rattle.command_words.specs.inside.Arguments.{rule_given, with_words};
ghost use Rattle.command_words.specs.inside.Table as table;

use crate::table::Shape;
use clap::{Arg, ArgAction};
use std::alloc::Global;

/// How a word is given.
#[derive(Clone, Copy)]
pub(crate) enum Given {
    /// As `--NAME`.
    Flag,
    /// As `--NAME VALUE`, where the help calls the value so.
    Value(&'static str),
    /// By its place; it has to be there.
    Place,
    /// By its place, as one word or as many.
    Places,
    /// By its place, as many words as there are.
    Rest,
}

/// A word of a subcommand.
#[derive(Clone, Copy)]
pub(crate) struct Word {
    pub(crate) name: &'static str,
    pub(crate) given: Given,
    pub(crate) help: &'static str,
}

const PATH: Word = Word {
    name: "PATH",
    given: Given::Place,
    help: "The worksheet, which is the files PATH and PATH.alt",
};

const PATHS: Word = Word {
    name: "PATH",
    given: Given::Places,
    help: "The worksheets, each of which is the files PATH and PATH.alt",
};

const NEW: Word = Word {
    name: "NEW",
    given: Given::Place,
    help: "The new worksheet, which will be the files NEW and NEW.alt",
};

const CHANGES: Word = Word {
    name: "N",
    given: Given::Place,
    help: "After how many of its changes the worksheet is taken; `history` has their numbers",
};

const AT: Word = Word {
    name: "at",
    given: Given::Value("N"),
    help: "Write the worksheet as it was after its first N changes",
};

const FORMAT: Word = Word {
    name: "FORMAT",
    given: Given::Place,
    help: "What the worksheet is written as: script, markdown, html, notebook or json",
};

const IDS: Word = Word {
    name: "ID",
    given: Given::Rest,
    help: "The numbers of the fields that are evaluated; without one all are",
};

const JSON: Word = Word {
    name: "json",
    given: Given::Flag,
    help: "Write lines of JSON, which programs read",
};

const PARTIAL: Word = Word {
    name: "partial",
    given: Given::Flag,
    help: "Write lines of JSON, also of what interpreters write before it is an answer",
};

const STRICT: Word = Word {
    name: "strict",
    given: Given::Flag,
    help: "Stop after the first line that goes wrong",
};

const UNANSWERED: Word = Word {
    name: "unanswered",
    given: Given::Flag,
    help: "Evaluate only fields without an answer",
};

const CHANGED: Word = Word {
    name: "changed",
    given: Given::Flag,
    help: "Evaluate only sessions in which a field shows no answer",
};

const KEEP_GOING: Word = Word {
    name: "keep-going",
    given: Given::Flag,
    help: "Pass over no field",
};

const STOP_AT_ERROR: Word = Word {
    name: "stop-at-error",
    given: Given::Flag,
    help: "Stop as --strict does, and after an answer that is an error",
};

const ACCEPT: Word = Word {
    name: "accept",
    given: Given::Flag,
    help: "Put the answers that differ, or are new, into the worksheet",
};

const WHOLE: Word = Word {
    name: "whole",
    given: Given::Flag,
    help: "Write both outputs whole where they differ",
};

const ALL: Word = Word {
    name: "all",
    given: Given::Flag,
    help: "Check fields that show no answer, too",
};

const WAIT_TIMEOUT: Word = Word {
    name: "timeout",
    given: Given::Value("SECONDS"),
    help: "Interrupt the interpreters where a line takes longer than this",
};

const FIELD_TIMEOUT: Word = Word {
    name: "timeout",
    given: Given::Value("SECONDS"),
    help: "Interrupt the interpreter of a field that takes longer than this",
};

const REPORT: Word = Word {
    name: "format",
    given: Given::Value("FORMAT"),
    help: "How the report is written: text, tap, junit or json",
};

const SESSION: Word = Word {
    name: "only",
    given: Given::Value("NAME"),
    help: "Evaluate the fields of this session alone",
};

const LEFT_OUT: Word = Word {
    name: "leave-out",
    given: Given::Value("IDS"),
    help: "Don't compare the outputs of these fields, as 3,7-9",
};

const COMPARED: Word = Word {
    name: "compare",
    given: Given::Value("IDS"),
    help: "Compare the outputs of these fields alone, as 3,7-9",
};

const FROM: Word = Word {
    name: "from",
    given: Given::Value("ID"),
    help: "Evaluate the field with this number and those after it",
};

const JOBS: Word = Word {
    name: "jobs",
    given: Given::Value("N"),
    help: "Evaluate fields of up to so many sessions side by side",
};

static STREAM: [Word; 1] = [JSON];

static CREATE: [Word; 1] = [PATH];

static RUN: [Word; 4] = [PATH, STRICT, JSON, WAIT_TIMEOUT];

static LIVE: [Word; 3] = [PATH, JSON, PARTIAL];

static SHOW: [Word; 3] = [PATH, JSON, AT];

static EVAL: [Word; 11] = [
    PATH,
    STRICT,
    UNANSWERED,
    CHANGED,
    JSON,
    FIELD_TIMEOUT,
    KEEP_GOING,
    STOP_AT_ERROR,
    FROM,
    JOBS,
    IDS,
];

static CHECK: [Word; 11] = [
    PATHS,
    JSON,
    REPORT,
    SESSION,
    LEFT_OUT,
    COMPARED,
    FIELD_TIMEOUT,
    ACCEPT,
    WHOLE,
    ALL,
    JOBS,
];

static RESCUE: [Word; 2] = [PATH, NEW];

static EXPORT: [Word; 3] = [FORMAT, PATH, AT];

static RESTORE: [Word; 3] = [PATH, CHANGES, NEW];

/// The words of a subcommand of this shape, in their order. None where its help is all that it has.
pub(crate) fn words_of(shape: Shape) -> Option<&'static [Word]>
    ensures words { IfSome result (λ words. (name : Text)
        → with_words (new_app name) words.now ≡ table.app_for shape name) }
    ensures none { IfNone result (shape ≡ Shape.Help) }
{
    match shape {
        Shape::Stream => Some(&STREAM),
        Shape::Path => Some(&CREATE),
        Shape::Run => Some(&RUN),
        Shape::Live => Some(&LIVE),
        Shape::Show => Some(&SHOW),
        Shape::Eval => Some(&EVAL),
        Shape::Check => Some(&CHECK),
        Shape::Paths => Some(&RESCUE),
        Shape::Format => Some(&EXPORT),
        Shape::Earlier => Some(&RESTORE),
        Shape::Help => None,
    }
}

/// The argument that a word is to `clap`.
pub(crate) fn argument<'a>(alloc: Global, word: Word) -> Arg<'a>
    ensures rule { rule_of result ≡ rule_given word.given word.name.now }
    ensures local { result.global ≡ false }
{
    let named = Arg::new(alloc, word.name).help(word.help);
    match word.given {
        Given::Flag => named.long(word.name).action(ArgAction::SetTrue),
        Given::Value(value) => named.long(word.name).value_name(value),
        Given::Place => named.required(true),
        Given::Places => named.action(ArgAction::Append).required(true),
        Given::Rest => named.action(ArgAction::Append),
    }
}
