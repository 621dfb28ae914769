// Recordings and queues at their edges.
use crate::expectation::expect;
use gf::Refusal;
use sources::{FrameQueue, FrameSource, Next, Recording};

// A frame of size 1 that can be told from its 250 neighbours.
fn frame(number: usize) -> [u8; 24] {
    [(number % 251) as u8; 24]
}

// Asks for the next frame, of size 1, and answers what the buffer holds then: 255 throughout where nothing is written.
fn take<S: FrameSource>(source: &mut S) -> (Result<Next, Refusal>, [u8; 24]) {
    let mut buffer = [255; 24];
    let answer = source.next(&mut buffer);
    (answer, buffer)
}

#[test]
fn sizes(rt: HostRuntime) {
    let bytes = [0; 24 * 768];
    for (size, frame_length, checked) in [
        (0, Err(Refusal::Size), Err(Refusal::Size)),
        (1, Ok(24), Err(Refusal::Buffer)),
        (24, Ok(576), Ok(())),
        (25, Err(Refusal::Size), Err(Refusal::Size)),
        (usize::MAX, Err(Refusal::Size), Err(Refusal::Size)),
    ] {
        let found = Recording::new(size, &bytes).map(|recording| recording.frame_length());
        assert_eq!(rt; found, frame_length, "recording of size {size}");
        assert_eq!(rt;
            FrameQueue::check(size, &bytes),
            checked,
            "queue of size {size}"
        );
    }
    for (length, checked) in [
        (767, Err(Refusal::Buffer)),
        (768, Ok(())),
        (769, Err(Refusal::Buffer)),
    ] {
        assert_eq!(rt;
            FrameQueue::check(1, &bytes[..length]),
            checked,
            "{length} bytes"
        );
    }
}

#[test]
fn a_recording_gives_its_whole_frames(rt: HostRuntime) {
    let mut bytes = [7; 71];
    bytes[24..48].fill(8);
    bytes[48..].fill(9);
    for (length, frames) in [(0, 0), (23, 0), (24, 1), (25, 1), (46, 1), (48, 2), (71, 2)] {
        let mut recording = Recording::new(1, &bytes[..length]).expect(&rt, "the size is right");
        expect(&rt, recording.next(&mut [0; 23]), Err(Refusal::FrameLength));
        for number in 0..frames {
            let expected = (Ok(Next::Frame), frame(7 + number));
            assert_eq!(rt;
                take(&mut recording),
                expected,
                "frame {number} of {length} bytes"
            );
        }
        let nothing = (Ok(Next::NothingWaiting), [255; 24]);
        assert_eq!(rt; take(&mut recording), nothing, "behind {length} bytes");
        expect(&rt, recording.offer(&frame(0)), Err(Refusal::Full));
        expect(&rt, recording.offer(&[0; 25]), Err(Refusal::FrameLength));
    }
}

#[test]
fn a_queue_is_full_at_32(rt: HostRuntime) {
    let mut bytes = [0; 768];
    let mut queue = FrameQueue::new(1, &mut bytes);
    for number in 0..32 {
        assert_eq!(rt; queue.offer(&frame(number)), Ok(()), "frame {number}");
    }
    expect(&rt, queue.offer(&frame(32)), Err(Refusal::Full));
    // The length comes before the place.
    expect(&rt, queue.offer(&[0; 23]), Err(Refusal::FrameLength));
    expect(&rt, queue.next(&mut [0; 25]), Err(Refusal::FrameLength));
    expect(&rt, take(&mut queue), (Ok(Next::Frame), frame(0)));
    expect(&rt, queue.offer(&frame(32)), Ok(()));
    expect(&rt, queue.offer(&frame(33)), Err(Refusal::Full));
    for number in 1..33 {
        assert_eq!(rt;
            take(&mut queue),
            (Ok(Next::Frame), frame(number)),
            "frame {number}"
        );
    }
    expect(&rt, take(&mut queue), (Ok(Next::NothingWaiting), [255; 24]));
}

#[test]
fn a_queue_goes_around_many_times(rt: HostRuntime) {
    let mut bytes = [0; 768];
    let mut queue = FrameQueue::new(1, &mut bytes);
    let mut offered = 0_usize;
    let mut taken = 0_usize;
    // Bursts of 0 to 32 frames, after each of which 0 to 4 frames are left waiting.
    for turn in 0..1000 {
        for _ in 0..turn % 33 {
            if queue.offer(&frame(offered)).is_ok() {
                offered = offered.saturating_add(1);
            }
        }
        for number in taken..offered.saturating_sub(turn % 5) {
            assert_eq!(rt;
                take(&mut queue),
                (Ok(Next::Frame), frame(number)),
                "turn {turn}"
            );
            taken = taken.saturating_add(1);
        }
    }
    assert!(rt; taken > 10_000);
}

#[test]
fn a_queue_of_size_24(rt: HostRuntime) {
    let mut bytes = [0; 24 * 768];
    let mut queue = FrameQueue::new(24, &mut bytes);
    expect(&rt, queue.frame_length(), 576);
    for number in 0..40_u8 {
        assert_eq!(rt; queue.offer(&[number; 576]), Ok(()), "frame {number}");
        let mut buffer = [255; 576];
        assert_eq!(rt; queue.next(&mut buffer), Ok(Next::Frame), "frame {number}");
        expect(&rt, buffer, [number; 576]);
    }
}

#[test]
fn a_refused_queue_is_always_full(rt: HostRuntime) {
    let wrong = [
        (0, 0),
        (1, 767),
        (1, 0),
        (2, 768),
        (25, 25 * 768),
        (usize::MAX, 768),
    ];
    for (size, length) in wrong {
        let mut bytes = [0; 25 * 768];
        let mut queue = FrameQueue::new(size, &mut bytes[..length]);
        assert_eq!(rt; queue.frame_length(), 0, "size {size}, {length} bytes");
        expect(&rt, queue.offer(&[]), Err(Refusal::Full));
        expect(&rt, queue.offer(&[0]), Err(Refusal::FrameLength));
        expect(&rt, queue.next(&mut []), Ok(Next::NothingWaiting));
        expect(&rt, queue.next(&mut [0]), Err(Refusal::FrameLength));
    }
}
