// What a question line about a su file asks: TARGET USER GROUPS.
ghost use Rattle.std.specs.Prelude.{◌≤◌, ◌≡◌, length};
ghost use Rattle.text.specs.Lists.{split_at};
ghost use Rattle.console.specs.QuestionLine.{line_limit};
ghost use Rattle.su_console.specs.QuestionLine.{su_asked_from, su_asked_in};
ghost use Rattle.su_console.specs.Contract.{SuReads};

use console::question_line::{QuestionLine, piece_end, put_groups};

// What a line asks: where its pieces are.
#[derive(Drop)]
pub struct SuPieces {
    // Where TARGET and USER end in the line; USER begins behind the space before it.
    pub target: usize,
    pub user: usize,
    // Where the groups end in the scratch, as zero-ended strings.
    pub groups: usize,
}

// The pieces of a line that is short enough; there are three.
fn read_pieces(line: &[u8], scratch: &mut [u8]) -> Option<SuPieces>
    requires { (length line.now ≤ line_limit) × (length scratch.old ≡ line_limit) }
    ensures { SuReads line.now (su_asked_from (split_at 32 line.now)) scratch.new result }
{
    let target = piece_end(line, 0);
    let user = piece_end(line, target + 1);
    if user >= line.len() || piece_end(line, user + 1) < line.len() {
        return None;
    }
    let groups = put_groups(&line[user + 1..], scratch)?;
    Some(SuPieces {
        target,
        user,
        groups,
    })
}

// What a line, without its newline, asks. The groups are put into the scratch.
pub fn read_su_question_line(
    line: &[u8],
    scratch: &mut [u8; QuestionLine::BYTES],
) -> Option<SuPieces>
    ensures { SuReads line.now (su_asked_in line.now) scratch.new result }
{
    if line.len() > QuestionLine::BYTES || line.contains(&0) {
        return None;
    }
    read_pieces(line, scratch)
}
