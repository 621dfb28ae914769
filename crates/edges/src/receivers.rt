// Receivers over a recording, a queue, and a queue made where its check refuses; what patience, resets and foreign frames do.
use crate::expectation::expect;
use block::{ChannelMode, DacRate, Parameters, Settings, make_super_frame};
use gf::Refusal;
use reception::{Mode, Pulled, Receiver, Report, UnitState};
use sources::{FrameQueue, Recording};

// A super frame of size 1 with two units.
fn super_frame() -> Result<[u8; 120], Refusal> {
    let parameters = Parameters {
        dac: DacRate::Khz32,
        sbr: true,
        mode: ChannelMode::Mono,
        ps: false,
        surround: 0,
    };
    let settings = Settings::new(1, parameters)?;
    let mut first = [0; 60];
    for (n, byte) in first.iter_mut().enumerate() {
        *byte = (n * 37 % 251) as u8;
    }
    let mut block = [0; 120];
    make_super_frame(settings, &[&first, &[0x5A; 41]], &mut block)?;
    Ok(block)
}

// Puts a frame into the queue, and pulls it.
fn receive(
    receiver: &mut Receiver<FrameQueue<'_>>,
    frame: &[u8],
    buffer: &mut [u8],
) -> Result<Pulled, Refusal> {
    receiver.offer(frame)?;
    receiver.pull(buffer)
}

fn is_delivered(answer: Result<Pulled, Refusal>) -> bool {
    matches!(&answer, Ok(Pulled::Delivered(_)))
}

fn is_missed(answer: Result<Pulled, Refusal>) -> bool {
    matches!(&answer, Ok(Pulled::Missed(_)))
}

// Receives the five frames of the super frame; whether the last was delivered.
fn lock(receiver: &mut Receiver<FrameQueue<'_>>, block: &[u8; 120], buffer: &mut [u8]) -> bool {
    let mut last = Ok(Pulled::NothingWaiting);
    for frame in block.chunks_exact(24) {
        last = receive(receiver, frame, buffer);
    }
    is_delivered(last)
}

#[test]
fn after_a_foreign_frame_it_is_back(rt: HostRuntime) {
    let block = super_frame().expect(&rt, "the units fill it");
    for patience in [1, 3, 16] {
        let mut places = [0; 768];
        let mut buffer = [0; 120];
        let mut receiver = Receiver::new(1, FrameQueue::new(1, &mut places));
        expect(&rt, receiver.patience(patience), Ok(()));
        assert!(rt; lock(&mut receiver, &block, &mut buffer), "it locks");
        expect(
            &rt,
            receive(&mut receiver, &[0x55; 24], &mut buffer),
            Ok(Pulled::Held),
        );
        // Misread at frames 4, 9, 14 and so on, and the next frame after the last of them is delivered.
        for number in 1..5 * patience + 1 {
            let place = (number - 1) % 5 * 24;
            let answer = receive(&mut receiver, &block[place..place + 24], &mut buffer);
            assert_eq!(rt;
                is_missed(answer),
                number % 5 == 4,
                "patience {patience}, frame {number}"
            );
            assert_eq!(rt;
                is_delivered(answer),
                number == 5 * patience,
                "patience {patience}, frame {number}"
            );
        }
        expect(&rt, buffer, block);
    }
}

#[test]
fn patience_is_lowered_below_the_misses(rt: HostRuntime) {
    let block = super_frame().expect(&rt, "the units fill it");
    let mut places = [0; 768];
    let mut buffer = [0; 120];
    let mut receiver = Receiver::new(1, FrameQueue::new(1, &mut places));
    expect(&rt, receiver.patience(16), Ok(()));
    assert!(rt; lock(&mut receiver, &block, &mut buffer), "it locks");
    for number in 0..15 {
        if number == 10 {
            let two = Report {
                mode: Mode::Locked,
                held: 0,
                misses: 2,
                patience: 16,
            };
            expect(&rt, receiver.report(), two);
            expect(&rt, receiver.patience(0), Err(Refusal::Patience));
            expect(&rt, receiver.patience(17), Err(Refusal::Patience));
            expect(&rt, receiver.patience(1), Ok(()));
        }
        let answer = receive(&mut receiver, &[0x55; 24], &mut buffer);
        assert_eq!(rt; is_missed(answer), number % 5 == 4, "frame {number}");
    }
    let lost = Report {
        mode: Mode::Hunting,
        held: 4,
        misses: 0,
        patience: 1,
    };
    expect(&rt, receiver.report(), lost);
    assert_eq!(rt; buffer, block, "the buffer is as the delivery left it");
    receiver.reset();
    expect(&rt, receiver.report(), Report { held: 0, ..lost });
}

#[test]
fn over_a_recording(rt: HostRuntime) {
    let block = super_frame().expect(&rt, "the units fill it");
    let mut spoiled = block;
    spoiled[56] = spoiled[56].wrapping_add(1);
    let mut bytes = vec![in rt.alloc(); 0x55; 24].expect(&rt, "there is memory");
    for part in [&block, &spoiled] {
        bytes.extend_from_slice(part).expect(&rt, "there is memory");
    }
    let mut buffer = [7; 120];
    let source = Recording::new(1, &bytes).expect(&rt, "the size is right");
    expect(&rt, Receiver::check(1, &source), Ok(()));
    expect(&rt, Receiver::check(2, &source), Err(Refusal::FrameLength));
    let mut receiver = Receiver::new(1, source);
    expect(&rt, receiver.pull(&mut [0; 119]), Err(Refusal::Buffer));
    for number in 0..11 {
        match receiver.pull(&mut buffer) {
            Ok(Pulled::Delivered(delivery)) => {
                assert!(rt; number == 5 || number == 10, "frame {number}");
                assert_eq!(rt;
                    delivery.repair.changed,
                    usize::from(number == 10),
                    "bytes changed"
                );
                expect(&rt, delivery.units[1], Some(UnitState::Good));
                expect(&rt, delivery.units[2], None);
                expect(&rt, buffer, block);
                buffer.fill(7);
            }
            answer => {
                assert_eq!(rt; answer, Ok(Pulled::Held), "frame {number}");
                assert_eq!(rt; buffer, [7; 120], "frame {number}");
            }
        }
    }
    expect(&rt, receiver.pull(&mut buffer), Ok(Pulled::NothingWaiting));
    expect(&rt, receiver.offer(&[0; 24]), Err(Refusal::Full));
}

#[test]
fn made_where_the_check_refuses(rt: HostRuntime) {
    let mut places = [0; 767];
    let queue = FrameQueue::new(1, &mut places);
    expect(&rt, Receiver::check(1, &queue), Err(Refusal::FrameLength));
    expect(&rt, Receiver::check(0, &queue), Err(Refusal::Size));
    let mut receiver = Receiver::new(1, queue);
    expect(&rt, receiver.pull(&mut [0; 120]), Err(Refusal::FrameLength));
    expect(&rt, receiver.pull(&mut [0; 121]), Err(Refusal::Buffer));
    expect(&rt, receiver.offer(&[0; 24]), Err(Refusal::FrameLength));
    for size in [0, 25, usize::MAX] {
        let mut places = [0; 768];
        let mut receiver = Receiver::new(size, FrameQueue::new(1, &mut places));
        assert_eq!(rt;
            receiver.pull(&mut [0; 120]),
            Err(Refusal::Size),
            "size {size}"
        );
    }
}
