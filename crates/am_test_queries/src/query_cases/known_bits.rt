//! Small problems over known bits.

pub static CASES: &str = "\
3 operation 2 (udiv (ashr x0 x1) x1) domain known-bits start Z O depth 1 turns 5 conflicts 100000
rule Z (and 3 f3) (and f2 (and f2 2)) rule O (not f2) (add f2 f3) 0
alone +5261/21 -2000/6
given +3442/42
fit 13 1225629360 63 154469506 found
sound 111 2146244251 178 2846640432 fails
precise 81 4273677693 189 2101436409 best

2 operation 2 (sub x0 x1) assume (urem x0 x1) domain known-bits start Z O depth 1 turns 2 conflicts 100000
rule Z 0 rule O (shl (ult f3 f0) f0)
alone
given +0300/32
fit 3 25567584 33 507750367 found
sound 74 1328879238 119 3701848700 holds
precise 49 807895791 115 3653829260 best

2 operation 2 (eq x0 (sub x1 x0)) domain known-bits start Z O depth 3 turns 4 conflicts 100000
rule Z (smax (sle f3 0) f0) (eq f0 (sle f0 f1)) (eq A A) (lshr f3 (sub f3 f0)) rule O (smax (and f3 f2) f3) 0
rule A f0 (and B B) rule B f1 f3
alone +0020/00 -0301/1 -2101/0
given +1021/21 +3010/00 -1202/1 -0310/1
fit 76 2897986185 435 1671579403 nothing
sound 66 3633987986 107 3236302814 fails
precise 200 4150438448 601 1805456244 best

3 operation 1 (add x0 x0) domain known-bits start Z O depth 2 turns 3 conflicts 100000
rule Z (umax f1 (sle f1 f0)) 0 (eq B A) rule O (add B B) rule A f0 rule B f1 f0
alone +14/6 -30/1
given +60/0 -14/2
fit 40 2174316832 198 245155602 nothing
sound 34 50289676 94 1538362702 holds
precise 137 2391930430 351 218213063 best

2 operation 2 (umin x0 (smin x1 3)) assume (ult x1 2) domain known-bits start Z O depth 2 turns 4 conflicts 100000
rule Z (ite D C B) (eq A C) (ite f1 f0 f0) rule O (eq C D) (ult f2 0) rule A 3 rule B f0 rule C f0 f3 1 rule D f1 3
alone +3000/00 +2101/11 -3003/0 -0203/3
given +0130/10 -2103/3 -0202/2 -0121/3
fit 94 1388829807 306 3059391105 found
sound 58 1435627970 109 1308923565 holds
precise 165 2513867469 428 3855434540 better

2 operation 2 (ashr (shl x1 x0) 2) domain known-bits start Z Z depth 1 turns 2 conflicts 100000
rule Z (xor 2 (smin 0 f2)) (slt (umax f1 f3) f3) 0 f2
alone +1210/20 -0221/1
given +2020/10 -0200/1
fit 20 2076559637 169 4214175957 found
sound 54 4078379909 99 2000278230 holds
precise 106 2745407423 305 745184102 better

2 operation 1 (lshr 1 x0) domain known-bits start Z O depth 3 turns 6 conflicts 100000
rule Z (and (not 1) f0) (or B A) (sle A C) (or B C) rule O 0 (ule f0 (umax 2 f1)) rule A 2 (sle B C) rule B f1
rule C 2 f1
alone -30/2 -00/0 -02/3
given +00/0 -30/3
fit 57 255736320 204 347114791 found
sound 33 1270037537 67 1413716728 fails
precise 138 2083895096 342 1011879599 best

3 operation 2 (shl x1 x0) domain known-bits start Z O depth 2 turns 4 conflicts 100000
rule Z (umax B D) (shl A A) (umax C A) (umax D B) rule O 0 (umax B B) rule A f1 f2 f3 rule B f0 f3 f1 rule C f0
rule D f3
alone +5043/23 +7021/05 -1260/7 -5207/0
given -5012/4 -6012/6 -0116/1 -7006/4
fit 334 284773569 676 136485875 found
sound 89 3115894799 145 1183110965 fails
precise 527 1995522939 922 4289434637 better

3 operation 1 (ult x0 1) domain known-bits start Z O depth 3 turns 6 conflicts 100000
rule Z (umin C B) (ult f0 f1) rule O (ule C A) rule A f0 (shl A A) f1 rule B (add C A) rule C f1 5
alone +21/1 +70/0 -34/1 -30/0 -03/7
given +60/1 -52/5 -24/1 -10/2
fit 211 2298484737 536 3544345356 nothing
sound 63 28096606 106 4194162011 fails
precise 361 1215827636 737 3001948623 best

2 operation 3 (ule (umin x1 x2) x0) domain known-bits start Z O depth 2 turns 2 conflicts 100000
rule Z (smax B A) 0 rule O f1 0 rule A f1 rule B f2
alone +120302/232 -013012/1
given -032101/0 -120312/1
fit 20 821582730 79 2022915892 found
sound 75 1111843066 129 2160823656 fails
precise 81 3976167768 177 644729088 better

3 operation 1 (smax x0 x0) domain known-bits start Z O depth 2 turns 3 conflicts 100000
rule Z f0 rule O (smax A A) rule A 0 f1
alone -04/2
given
fit 7 3645440330 7 3645440330 found
sound 43 1958014141 94 2012233385 holds
precise 72 1345540496 118 804620064 best

2 operation 1 (not x0) domain known-bits start Z O depth 1 turns 4 conflicts 100000
rule Z (lshr f1 f0) f1 (lshr f1 (or f1 1)) 0 rule O 0 (smin f0 (umin f0 f1)) (smin (smin f0 f1) f0)
alone +03/3 -21/3 -30/0
given +02/3 -01/3 -30/2 -03/0
fit 22 3082084694 296 3304213336 nothing
sound 42 62664586 63 1043453896 holds
precise 108 1675425704 414 3346240246 best";
