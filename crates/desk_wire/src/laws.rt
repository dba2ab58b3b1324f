//! Laws of frames.
ghost use Rattle.std.specs.Prelude.{◌≡◌, ◌<◌, ◌≤◌, ◌+◌, ◌^◌, ◌++◌, [], List, ℕ, Ok, Err, length};
ghost use Rattle.std.specs.List.{concat};
ghost use Rattle.fsd_texts.specs.declared.no_frame.NoFrame.TheVariants.{Bad, Short};
ghost use Rattle.fsd_texts.specs.Frames.{Frame, after, frame_at, frame_text, frames_by, frames_in, max_body};

/// What is read of bytes stays as more come: a frame, and that there is none; so the frames that pieces give, each as
/// soon as it is whole, are those of all bytes, however they are cut. What waits for more bytes is less than the
/// greatest frame. And a frame that is spelled is read.
pub fn frames_are_given_whole()
    ensures stays { (bytes more rest : List ℕ) (f : Frame) → frame_at bytes ≡ Ok (f, rest) → frame_at (bytes ++ more) ≡ Ok (f, rest ++ more) }
    ensures bad { (bytes more : List ℕ) → frame_at bytes ≡ Err Bad → frame_at (bytes ++ more) ≡ Err Bad }
    ensures cut { (front more : List ℕ) → frames_in (front ++ more) ≡ after (frames_in front) more }
    ensures pieces { (pieces : List (List ℕ)) → frames_by [] pieces ≡ frames_in (concat pieces) }
    ensures few { (bytes : List ℕ) → frame_at bytes ≡ Err Short → length bytes < 8 + max_body }
    ensures spelled { (tag : ℕ) (body rest : List ℕ) → 1 ≤ tag → tag < 2 ^ 32 → 1 ≤ length body → length body ≤ max_body → frame_at (frame_text tag body ++ rest) ≡ Ok (record { tag = tag; body = body }, rest) }
{}
