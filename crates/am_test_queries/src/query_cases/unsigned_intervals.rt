//! Small problems over unsigned intervals.

pub static CASES: &str = "\
3 operation 1 (eq 2 x0) assume (xor 1 x0) domain u-interval start L H depth 3 turns 3 conflicts 100000
rule L (smin B C) 0 rule H (urem A A) (neg A) rule A (slt C B) f1 rule B f0 rule C f1 (not C)
alone +26/2 -15/2 -16/0
given
fit 17 1626508924 17 1626508924 found
sound 105 3436099630 151 2397286006 fails
precise 235 2569421511 290 233183589 better

2 operation 2 (umax x1 (add x1 x0)) domain u-interval start L H depth 2 turns 4 conflicts 100000
rule L (lshr A A) (umax A B) rule H 3 rule A 1 (lshr 3 f2) f2 rule B (neg f1)
alone -0003/1 -0311/0
given +0123/02 -0000/0
fit 61 991326485 135 1498577139 found
sound 73 4240055183 109 2054073484 fails
precise 138 2352338961 257 132128506 best

2 operation 2 (smin x1 x0) domain u-interval start L H depth 2 turns 7 conflicts 100000
rule L (sle A A) rule H (xor A B) (or A B) 3 (not C) rule A f2 3 f1 rule B f3 rule C (not B)
alone +0102/10 +2301/30 -0013/0 -0001/2
given +0112/02 +1113/11
fit 74 491351140 128 1970681034 found
sound 69 1246688914 93 1180931832 fails
precise 159 778790360 234 3818801083 better

3 operation 1 (or x0 x0) domain u-interval start L H depth 1 turns 5 conflicts 100000
rule L f1 (umin f0 f1) rule H (and (sle f0 f1) f0) 7 rule U f0 (not U)
alone +03/0 -55/5
given +02/2 -26/2
fit 19 2485545377 125 1560053240 found
sound 70 3188398232 97 101259862 fails
precise 116 1515207105 254 2585907549 better

3 operation 2 (sle x0 x1) domain u-interval start L H depth 2 turns 2 conflicts 100000
rule L 0 (or A A) rule H 7 (or 1 f1) rule A (neg f3) f0
alone +2605/30 -1246/6
given +0512/51 -4413/4
fit 47 1812918617 153 3304820184 nothing
sound 82 3560546489 127 1904722322 holds
precise 137 3485835217 291 2222633145 best

3 operation 2 (lshr x0 x1) domain u-interval start L H depth 1 turns 5 conflicts 100000
rule L 0 (ult 3 f3) rule H (xor f2 f1) (slt 6 5)
alone -1600/1 -4617/0
given +1445/45 +3500/30 -6637/1
fit 14 1157656645 176 2920071514 nothing
sound 89 1608822035 142 2876734780 fails
precise 81 208709845 314 1585613501 best

3 operation 1 (ashr 2 x0) domain u-interval start L H depth 2 turns 4 conflicts 100000
rule L (and A A) (or C A) 0 rule H (xor C B) (eq C A) rule A f1 f0 3 rule B f0 rule C f0 4
alone +07/0 +15/3
given +22/2 -07/1 -36/0
fit 158 634181421 308 278965820 nothing
sound 50 940460728 82 4111803767 holds
precise 277 3446218700 452 3591443608 best

2 operation 1 (sub x0 2) assume x0 domain u-interval start L H depth 3 turns 2 conflicts 100000
rule L (ashr A B) 0 rule H 3 (and C C) rule A (shl A C) 1 rule B 0 rule C f1 0 f0
alone +02/1 -01/1
given +11/1 +13/2
fit 74 3607584577 138 4047243729 found
sound 34 2337357107 63 917029207 holds
precise 137 1416290703 236 2497996863 best

2 operation 2 (smax x0 x1) assume x1 domain u-interval start L H depth 1 turns 2 conflicts 100000
rule L (or f1 f2) (eq f3 f0) (ashr f3 (and f0 f2)) (ule 1 f0) rule H 3 (smin (umin f0 1) f0)
alone +0212/12 -2233/0
given +0123/12 -1323/0
fit 33 4184932145 131 1444050213 found
sound 60 2503340436 93 2188322631 holds
precise 105 1212040329 241 3797420696 best

2 operation 2 (and x0 x1) domain u-interval start L H depth 3 turns 4 conflicts 100000
rule L 0 rule H (ite A B B) (ite B D C) (slt D A) rule A 2 (add B A) 0 rule B f3 2 f2 (umin D C) rule C f1 rule D f1 2
alone +1333/33 -1123/2 -2323/3 -2233/3
given +1323/23 +2233/23 +2333/33 -0203/2
fit 387 3129067281 679 2853139535 found
sound 66 3292417636 105 2554852190 fails
precise 555 1417989624 905 2773882844 better

2 operation 1 (shl x0 (not x0)) domain u-interval start L H depth 1 turns 3 conflicts 100000
rule L (sub f0 2) 0 rule H (ult f0 f1) (smax f1 f1)
alone +12/2 +03/3
given +01/1 -02/0
fit 15 1533068084 93 2495032213 nothing
sound 36 2245916446 59 2639075576 holds
precise 61 3950292971 175 3927731415 best

2 operation 3 (neg (ashr (smin x1 x2) x0)) domain u-interval start L H depth 2 turns 5 conflicts 100000
rule L f0 (eq C A) (eq B C) (or B C) rule H 3 (ite A C B) rule A f2 3 rule B (not f4) f4 rule C (not f4) f2 f4
alone +011122/012 +123302/231 +330013/301 -023323/0
given +220000/200 -230211/3 -130123/3
fit 120 3225652144 252 2906224551 found
sound 84 758838085 129 2949465394 holds
precise 220 3012779974 386 1551074449 better";
