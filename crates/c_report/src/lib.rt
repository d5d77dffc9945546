// The report as an exported function on slices. include/tussockbell.h declares it for C.
#![tactic(auto)]

ghost use Rattle.std.specs.Prelude.{◌≡◌, ◌≤◌, length};
ghost use Rattle.decimal.specs.Write.{put};
ghost use Rattle.report_text.specs.Text.{most_text, report_text};

// The report of the four files' contents: its length, and its bytes at the start of the buffer if they all fit.
#[unsafe(no_mangle)]
pub extern "C" fn tussockbell_report(
    description: &[u8],
    footer: &[u8],
    tree: &[u8],
    offsets: &[u8],
    out: &mut [u8],
) -> usize
    ensures length { result ≡ length (report_text
        description.now footer.now tree.now offsets.now) }
    ensures buffer { out.new ≡ put out.old 0 (report_text
        description.now footer.now tree.now offsets.now) }
    ensures bound { result ≤ most_text }
{
    report_text::report(description, footer, tree, offsets, out)
}
