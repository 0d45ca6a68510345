// The text of document 01's reason classes, for callers that have no table of their own.
ghost use Rattle.std.specs.Prelude.{◌≡◌};
ghost use Rattle.class_table.specs.Text.{table_text};
ghost use Rattle.class_table.specs.Reasons.{reason_classes};

const REASON_CLASSES: [u8; 216] =
    *b"   0   0\n   1   0\n   2   0\n   3   1\n   4   1\n   5   2\n   6   2\n   7   2\n   8   3\n   9   3\n  10   4\n  11   4\n  12   5\n  13   5\n  14   5\n  15   6\n  16   6\n  17   6\n  18   7\n  19   7\n  20   8\n  21   8\n  22   9\n  23   9\n";

pub fn reason_classes_text() -> [u8; 216]
    ensures { result ≡ table_text reason_classes }
{
    REASON_CLASSES
}
