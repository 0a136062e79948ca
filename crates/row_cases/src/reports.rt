// Reports.
use crate::files::{
    ADDRESSES, BELOW_MAIN, CALLS, COMPRESSED, CRLF_CALLS, DERIVED, EQUAL_NAMES, FOUR_LINES, JUMPS,
    LAYOUT, LINES, ONE, RELATIVE,
};
use crate::steps::{Asked, Question, Step, print};
use prof_library::Key;
use std::alloc::Global;
use std::test::Fail;

const CALLS_BY_FUNCTION: &str =
    "by function Instructions\n820 100.00% total\n700 85.36% ???:func2\n100 12.19% ???:func1\n20 2.43% ???:main\n0 0.00% (rest)\n";

const CALLS_INCLUSIVE: &str =
    "inclusive Instructions\n820 100.00% total\n820 100.00% ???:main\n700 85.36% ???:func2\n400 48.78% ???:func1\n";

const CALLERS_OF_FUNC2: &str =
    "callers Instructions ???:func2\n700 5 total\n400 3 ???:main\n300 2 ???:func1\n";

const CALLEES_OF_MAIN: &str =
    "callees Instructions ???:main\n800 4 total\n400 1 ???:func1\n400 3 ???:func2\n";

const CALLS_OF_THE_MANUAL: &[Step] = &[
    (Asked::Import(CALLS), "run 1\n"),
    (
        Asked::Ask(Question::By(Key::Function, b"Instructions")),
        CALLS_BY_FUNCTION,
    ),
    (
        Asked::Ask(Question::Inclusive(b"Instructions")),
        CALLS_INCLUSIVE,
    ),
    (
        Asked::Ask(Question::Callers(b"Instructions", b"func2")),
        CALLERS_OF_FUNC2,
    ),
    (
        Asked::Ask(Question::Callees(b"Instructions", b"main")),
        CALLEES_OF_MAIN,
    ),
    (
        Asked::Ask(Question::Callers(b"Instructions", b"nobody")),
        "refused: no such name\n",
    ),
];

const TWO_WRITINGS_OF_ONE_PROFILE: &[Step] = &[
    (Asked::Import(CALLS), "run 1\n"),
    (Asked::Import(COMPRESSED), "run 2\n"),
    (
        Asked::Ask(Question::By(Key::File, b"Instructions")),
        "by file Instructions\n1640 100.00% total\n1400 85.36% file2.c\n240 14.63% file1.c\n0 0.00% (rest)\n",
    ),
];

const POSITIONS_OF_TWO_COLUMNS: &[Step] = &[
    (Asked::Import(ADDRESSES), "run 1\n"),
    (
        Asked::Ask(Question::By(Key::Line, b"ticks")),
        "by line ticks\n12 100.00% total\n6 50.00% ???:90\n6 50.00% ???:91\n0 0.00% (rest)\n",
    ),
];

const RELATIVE_POSITIONS: &[Step] = &[
    (Asked::Import(RELATIVE), "run 1\n"),
    (
        Asked::Ask(Question::By(Key::Line, b"Ir")),
        "by line Ir\n10 100.00% total\n5 50.00% a.c:10\n5 50.00% a.c:13\n0 0.00% (rest)\n",
    ),
    (
        Asked::Ask(Question::Callers(b"Ir", b"g")),
        "callers Ir ???:g\n7 2 total\n7 2 ???:main\n",
    ),
];

const A_NAME_IN_PARENTHESES: &[Step] = &[
    (Asked::Import(BELOW_MAIN), "run 1\n"),
    (
        Asked::Ask(Question::By(Key::Function, b"Ir")),
        "by function Ir\n7 100.00% total\n7 100.00% ???:(below main)\n0 0.00% (rest)\n",
    ),
];

const EACH_RUN_HAS_ITS_OWN_FORMULAS: &[Step] = &[
    (Asked::Import(DERIVED), "run 1\n"),
    (
        Asked::Ask(Question::By(Key::Function, b"Est")),
        "by function Est\n1500 100.00% total\n1500 100.00% ???:f\n0 0.00% (rest)\n",
    ),
    (
        Asked::Import(b"event: Est = 2 Ir\nevents: Ir\n1 5\n"),
        "run 2\n",
    ),
    (
        Asked::Ask(Question::By(Key::Function, b"Est")),
        "by function Est\n1510 100.00% total\n1500 99.33% ???:f\n10 0.66% ???:???\n0 0.00% (rest)\n",
    ),
    (
        Asked::Import(
            b"event: Est = Ir + 10 L1m + 100 * LLm : Estimate\nevents: Ir L1m LLm\nfn=f\n1 1000 20 3\nevent: Bad = Ir + Xx\n",
        ),
        "refused: line 5: F17 formula unknown\n",
    ),
];

const FOLDED_STACKS: &[Step] = &[
    (Asked::ImportFolded(b"a;b;a 3\na;b 2\n"), "run 1\n"),
    (
        Asked::Ask(Question::By(Key::Function, b"samples")),
        "by function samples\n5 100.00% total\n3 60.00% ???:a\n2 40.00% ???:b\n0 0.00% (rest)\n",
    ),
    (
        Asked::Ask(Question::Inclusive(b"samples")),
        "inclusive samples\n5 100.00% total\n5 100.00% ???:a\n5 100.00% ???:b\n",
    ),
    (Asked::Ask(Question::Folded), "a;b 2\na;b;a 3\n"),
    (
        Asked::ImportFolded(b"a 1.5\n"),
        "refused: line 1: F19 folded line\n",
    ),
];

const CUTS_OF_REPORTS: &[Step] = &[
    (Asked::Import(FOUR_LINES), "run 1\n"),
    (
        Asked::Ask(Question::CutBy(Key::Line, b"Ir", 1, 80)),
        "by line Ir\n100 100.00% total\n50 50.00% a.c:1\n50 50.00% (rest)\n",
    ),
    (
        Asked::Ask(Question::CutBy(Key::Line, b"Ir", 10, 80)),
        "by line Ir\n100 100.00% total\n50 50.00% a.c:1\n30 30.00% a.c:2\n20 20.00% (rest)\n",
    ),
    (
        Asked::Ask(Question::CutBy(Key::Line, b"Ir", 10, 0)),
        "by line Ir\n100 100.00% total\n100 100.00% (rest)\n",
    ),
];

const LINES_THAT_END_OTHERWISE: &[Step] = &[
    (Asked::ImportSlowly(CRLF_CALLS), "run 1\n"),
    (
        Asked::Ask(Question::By(Key::Function, b"Instructions")),
        CALLS_BY_FUNCTION,
    ),
    (
        Asked::Ask(Question::Inclusive(b"Instructions")),
        CALLS_INCLUSIVE,
    ),
    (
        Asked::Ask(Question::Callers(b"Instructions", b"func2")),
        CALLERS_OF_FUNC2,
    ),
    (
        Asked::Ask(Question::Callees(b"Instructions", b"main")),
        CALLEES_OF_MAIN,
    ),
];

const THE_EMPTY_FILE: &[Step] = &[
    (Asked::ImportNothing, "run 1\n"),
    (
        Asked::Ask(Question::Runs),
        "1 callgrind e3b0c44298fc1c149afbf4c8996fb92427ae41e4649b934ca495991b7852b855 empty.out\n",
    ),
    (
        Asked::Ask(Question::By(Key::Function, b"Ir")),
        "refused: no such event\n",
    ),
];

const A_RUN_LESS_ITSELF: &[Step] = &[
    (Asked::Import(CALLS), "run 1\n"),
    (
        Asked::Ask(Question::Less(1, 1, b"Instructions")),
        "subtract function Instructions\n0 total\n",
    ),
];

const A_RUN_LESS_ANOTHER: &[Step] = &[
    (Asked::Import(FOUR_LINES), "run 1\n"),
    (Asked::Import(ONE), "run 2\n"),
    (
        Asked::Ask(Question::Less(2, 1, b"Ir")),
        "subtract function Ir\n-99 total\n-100 ???:f\n1 ???:???\n",
    ),
];

const AN_ANNOTATED_SOURCE: &[Step] = &[
    (Asked::Import(LINES), "run 1\n"),
    (
        Asked::Annotate(b"Ir", b"a.c", b"int x;"),
        "annotate a.c Ir\n7 total\n2 1: int x;\n5 (outside)\n",
    ),
];

const A_STATED_TOTAL_THAT_AGREES: &[Step] = &[
    (Asked::Import(LAYOUT), "run 1\n"),
    (Asked::Ask(Question::Verify), "1 Ir 12 12 ok\n"),
    (
        Asked::Ask(Question::By(Key::File, b"Ir")),
        "by file Ir\n12 100.00% total\n10 83.33% a.c\n2 16.66% a.h\n0 0.00% (rest)\n",
    ),
];

const A_STATED_TOTAL_THAT_DIFFERS: &[Step] = &[
    (
        Asked::Import(b"events: Ir\nsummary: 10\nfn=f\n1 9\ntotals: 8\n"),
        "run 1\n",
    ),
    (Asked::Ask(Question::Verify), "1 Ir 9 8 differs\n"),
];

const NO_STATED_TOTAL: &[Step] = &[
    (Asked::Import(ONE), "run 1\n"),
    (Asked::Ask(Question::Verify), "1 Ir 1 none none\n"),
];

const JUMPS_BETWEEN_FILES: &[Step] = &[
    (Asked::Import(JUMPS), "run 1\n"),
    (
        Asked::Ask(Question::By(Key::Line, b"Ir")),
        "by line Ir\n3 100.00% total\n2 66.66% x.h:6\n1 33.33% ???:5\n0 0.00% (rest)\n",
    ),
];

const SELF_COSTS_AS_CSV: &[Step] = &[
    (Asked::Import(EQUAL_NAMES), "run 1\n"),
    (
        Asked::Ask(Question::Csv),
        "object,file,function,line,event,cost\nx.so,a.c,f,1,Ir,2\nx.so,a.c,f,2,Ir,3\n",
    ),
];

/// The rows of reports, each over an empty store.
const ROWS: [&[Step]; 18] = [
    CALLS_OF_THE_MANUAL,
    TWO_WRITINGS_OF_ONE_PROFILE,
    POSITIONS_OF_TWO_COLUMNS,
    RELATIVE_POSITIONS,
    A_NAME_IN_PARENTHESES,
    EACH_RUN_HAS_ITS_OWN_FORMULAS,
    FOLDED_STACKS,
    CUTS_OF_REPORTS,
    LINES_THAT_END_OTHERWISE,
    THE_EMPTY_FILE,
    A_RUN_LESS_ITSELF,
    A_RUN_LESS_ANOTHER,
    AN_ANNOTATED_SOURCE,
    A_STATED_TOTAL_THAT_AGREES,
    A_STATED_TOTAL_THAT_DIFFERS,
    NO_STATED_TOTAL,
    JUMPS_BETWEEN_FILES,
    SELF_COSTS_AS_CSV,
];

pub fn rows_of_reports(alloc: Global) -> Result<(), Fail> {
    for steps in ROWS {
        print(alloc, steps)?;
    }
    Ok(())
}
