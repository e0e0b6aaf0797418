// Arrows before the types of channels.
ghost use Rattle.std.specs.Prelude.{◌≡◌, ◌≤◌, IfOk, vec_len, take, drop, reverse};
ghost use Rattle.argot_parse_reader.specs.Reading.{Settles};
ghost use Rattle.argot_parse_reader.specs.ExpressionReader.{received, recast, ending_with, Recasts};

use crate::writer::{Writer, missing, undo};
use argot_parse_reader::Post;
use argot_text::Memory;
use argot_tree::NodeKind;

fn received(post: Post) -> Post
    ensures { result ≡ received post }
{
    Post {
        kind: NodeKind::ReceiveType,
        token: post.token.saturating_sub(1),
        last: post.last,
        size: post.size,
    }
}

// Each arrow that stood behind a `chan` belongs to the `chan` behind it, down to a mark.
fn recast_nodes(posts: &mut Vec<Post>, mark: usize) -> Result<bool, Memory>
    requires { mark ≤ vec_len posts.old }
    ensures { IfOk result (λ done. Recasts mark posts.old.items done posts.new.items) }
{
    if posts.len() <= mark {
        return Ok(false);
    }
    let Some(post) = posts.pop() else {
        return Ok(false);
    };
    match post.kind {
        NodeKind::ChanType => {
            posts.push(received(post))?;
            Ok(true)
        }
        NodeKind::SendType => {
            if recast_nodes(posts, mark)? {
                posts.push(received(post))?;
                return Ok(true);
            }
            posts.push(post)?;
            Ok(false)
        }
        _ => {
            posts.push(post)?;
            Ok(false)
        }
    }
}

/// An arrow before a type that begins with `chan` and whose nodes begin at a mark.
pub fn recast(out: &mut Writer, to: usize, mark: usize) -> Result<Option<usize>, Memory>
    requires { mark ≤ vec_len out.old.posts }
    ensures { IfOk result (λ r. Settles mark out.old.posts.items r out.new.posts.items (ending_with to (take mark out.old.posts.items) (recast (reverse (drop mark out.old.posts.items))))) }
{
    if recast_nodes(&mut out.posts, mark)? {
        return Ok(Some(to));
    }
    missing(out, to);
    undo(out, mark);
    Ok(None)
}
