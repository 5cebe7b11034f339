// The calls for C: lists come as a pointer and a length, answers go back as structs of numbers. include/surface_network.h declares them; what is east and
// south here is along_row and along_column there, and what is newPeaks new_peaks.
#![tactic(auto)]

ghost use Rattle.std.specs.Prelude.{◌≡◌};
ghost use Rattle.surface.specs.Plot.{plot};
ghost use Rattle.surface.specs.Spacings.{spacings};
ghost use Rattle.surface.specs.Calls.{plot_by, settings_answer, settings_name, survey_answer, survey_marks, reshoot_answer, reshoot_heights, reshoot_marks, trial_answer, ring_answer, ring_list, next_down_answer, next_up_answer, thalweg_answer, thalweg_list, ridge_answer, ridge_list, parts_answer, parts_dales, parts_hills, joins_answer, joins_list, splits_list, read_answer, read_heights, write_answer, write_file};
ghost use Rattle.surface.specs.Version.{version};

mod answers;

use answers::{
    answer_of, counts_of, line_told, next_told, ring_mark_of, sheet_of, size_of, tried_of,
};
use surface::{
    Answer, Counts, Entries, Next, RingMark, Sheet, Size, TrialCounts, VERSION_MAJOR,
    VERSION_MINOR, VERSION_PATCH,
};

#[unsafe(no_mangle)]
pub extern "C" fn sn_version() -> u32
    ensures { result ≡ version }
{
    VERSION_MAJOR * 10000 + VERSION_MINOR * 100 + VERSION_PATCH
}

#[unsafe(no_mangle)]
pub extern "C" fn sn_settings(sheet: &[u8], name: &mut [u8]) -> Sheet
    ensures value { result ≡ settings_answer sheet.now name.old }
    ensures name_after { name.new ≡ settings_name sheet.now name.old }
{
    sheet_of(settings::settings(sheet, name))
}

#[unsafe(no_mangle)]
pub extern "C" fn sn_survey(
    sheet: &[u8],
    rows: u32,
    columns: u32,
    heights: &[i32],
    marks: &mut [u8],
) -> Counts
    ensures value { result ≡ survey_answer (plot_by sheet.now rows columns heights.now) marks.old }
    ensures marks_after { marks.new ≡ survey_marks (plot_by sheet.now rows columns heights.now) marks.old }
{
    counts_of(survey::survey(sheet, rows, columns, heights, marks))
}

#[unsafe(no_mangle)]
pub extern "C" fn sn_reshoot(
    sheet: &[u8],
    rows: u32,
    columns: u32,
    heights: &mut [i32],
    marks: &mut [u8],
    post: u32,
    height: i32,
) -> Answer
    ensures value { result ≡ reshoot_answer (plot_by sheet.now rows columns heights.old) marks.old post height }
    ensures heights_after { heights.new ≡ reshoot_heights (plot_by sheet.now rows columns heights.old) marks.old post height }
    ensures marks_after { marks.new ≡ reshoot_marks (plot_by sheet.now rows columns heights.old) marks.old post height }
{
    answer_of(survey::reshoot(sheet, rows, columns, heights, marks, post, height))
}

#[unsafe(no_mangle)]
pub extern "C" fn sn_trial(
    sheet: &[u8],
    rows: u32,
    columns: u32,
    heights: &[i32],
    post: u32,
    height: i32,
) -> TrialCounts
    ensures { result ≡ trial_answer (plot_by sheet.now rows columns heights.now) post height }
{
    tried_of(trial::trial(sheet, rows, columns, heights, post, height))
}

#[unsafe(no_mangle)]
pub extern "C" fn sn_ring(
    sheet: &[u8],
    rows: u32,
    columns: u32,
    heights: &[i32],
    post: u32,
    ring: &mut [u8],
) -> RingMark
    ensures value { result ≡ ring_answer (plot_by sheet.now rows columns heights.now) post ring.old }
    ensures ring_after { ring.new ≡ ring_list (plot_by sheet.now rows columns heights.now) post ring.old }
{
    ring_mark_of(ring::ring(sheet, rows, columns, heights, post, ring))
}

#[unsafe(no_mangle)]
pub extern "C" fn sn_next_down(
    sheet: &[u8],
    rows: u32,
    columns: u32,
    east: u32,
    south: u32,
    heights: &[i32],
    post: u32,
) -> Next
    ensures { result ≡ next_down_answer (plot_by sheet.now rows columns heights.now) (spacings east south) post }
{
    next_told(lines::next_down(sheet, rows, columns, east, south, heights, post))
}

#[unsafe(no_mangle)]
pub extern "C" fn sn_next_up(
    sheet: &[u8],
    rows: u32,
    columns: u32,
    east: u32,
    south: u32,
    heights: &[i32],
    post: u32,
) -> Next
    ensures { result ≡ next_up_answer (plot_by sheet.now rows columns heights.now) (spacings east south) post }
{
    next_told(lines::next_up(sheet, rows, columns, east, south, heights, post))
}

#[unsafe(no_mangle)]
pub extern "C" fn sn_thalweg(
    sheet: &[u8],
    rows: u32,
    columns: u32,
    east: u32,
    south: u32,
    heights: &[i32],
    post: u32,
    run: u32,
    line: &mut [u16],
) -> Entries
    ensures value { result ≡ thalweg_answer (plot_by sheet.now rows columns heights.now) (spacings east south) post run line.old }
    ensures line_after { line.new ≡ thalweg_list (plot_by sheet.now rows columns heights.now) (spacings east south) post run line.old }
{
    line_told(lines::thalweg(sheet, rows, columns, east, south, heights, post, run, line))
}

#[unsafe(no_mangle)]
pub extern "C" fn sn_ridge(
    sheet: &[u8],
    rows: u32,
    columns: u32,
    east: u32,
    south: u32,
    heights: &[i32],
    post: u32,
    run: u32,
    line: &mut [u16],
) -> Entries
    ensures value { result ≡ ridge_answer (plot_by sheet.now rows columns heights.now) (spacings east south) post run line.old }
    ensures line_after { line.new ≡ ridge_list (plot_by sheet.now rows columns heights.now) (spacings east south) post run line.old }
{
    line_told(lines::ridge(sheet, rows, columns, east, south, heights, post, run, line))
}

#[unsafe(no_mangle)]
pub extern "C" fn sn_dales_and_hills(
    sheet: &[u8],
    rows: u32,
    columns: u32,
    east: u32,
    south: u32,
    heights: &[i32],
    dales: &mut [u16],
    hills: &mut [u16],
) -> Answer
    ensures value { result ≡ parts_answer (plot_by sheet.now rows columns heights.now) (spacings east south) dales.old hills.old }
    ensures dales_after { dales.new ≡ parts_dales (plot_by sheet.now rows columns heights.now) (spacings east south) dales.old hills.old }
    ensures hills_after { hills.new ≡ parts_hills (plot_by sheet.now rows columns heights.now) (spacings east south) dales.old hills.old }
{
    answer_of(parts::dales_and_hills(sheet, rows, columns, east, south, heights, dales, hills))
}

#[unsafe(no_mangle)]
pub extern "C" fn sn_joins_and_splits(
    sheet: &[u8],
    rows: u32,
    columns: u32,
    heights: &[i32],
    joins: &mut [u8],
    splits: &mut [u8],
) -> Answer
    ensures value { result ≡ joins_answer (plot_by sheet.now rows columns heights.now) joins.old splits.old }
    ensures joins_after { joins.new ≡ joins_list (plot_by sheet.now rows columns heights.now) joins.old splits.old }
    ensures splits_after { splits.new ≡ splits_list (plot_by sheet.now rows columns heights.now) joins.old splits.old }
{
    answer_of(joins::joins_and_splits(sheet, rows, columns, heights, joins, splits))
}

#[unsafe(no_mangle)]
pub extern "C" fn sn_read_survey(file: &[u8], heights: &mut [i32]) -> Size
    ensures value { result ≡ read_answer file.now heights.old }
    ensures heights_after { heights.new ≡ read_heights file.now heights.old }
{
    size_of(survey_file::read_survey(file, heights))
}

#[unsafe(no_mangle)]
pub extern "C" fn sn_write_survey(
    rows: u32,
    columns: u32,
    east: u32,
    south: u32,
    heights: &[i32],
    file: &mut [u8],
) -> Answer
    ensures value { result ≡ write_answer (plot rows columns heights.now) (spacings east south) file.old }
    ensures file_after { file.new ≡ write_file (plot rows columns heights.now) (spacings east south) file.old }
{
    answer_of(survey_file::write_survey(rows, columns, east, south, heights, file))
}
